//! Conditions of requests.

ghost use Rattle.std.specs.Prelude.{◌<◌, ◌^◌, length};
ghost use Rattle.rs_rules.specs.CondReadings.{cond_reading, ReadsAsCond};

use crate::cond_fault::CondFault;
use crate::reading::read_tags;
use crate::tag_list::TagList;
use std::alloc::Global;

/// What a request asks of the version: its If-Match or its If-None-Match (RFC 9110, sections 13.1.1 and 13.1.2).
#[derive(Debug, Drop)]
pub enum Cond {
    /// There is no such field.
    Missing,
    /// `*`: any version.
    Any,
    /// One of these tags. Texts in quotes that are no `Tag`, which equal no version, are left out.
    Tags(TagList),
}

impl Cond {
    /// The condition of a field's value: `*`, or entity tags parted by commas (RFC 9110, section 8.8.3).
    ///
    /// Spaces and tabs may stand round commas, and items may be empty. A tag is `W/` or nothing, and a text in double
    /// quotes. Where an item is no tag, the text is refused at the first byte, after blanks, of the first such item;
    /// a list without a tag is refused at 0.
    pub fn read(alloc: Global, text: &[u8]) -> Result<Cond, CondFault>
        requires short { length text.now < 2 ^ 32 }
        ensures read { ReadsAsCond result (cond_reading text.now) }
    {
        match text {
            b"*" => Ok(Cond::Any),
            _ => read_tags(alloc, text),
        }
    }
}
