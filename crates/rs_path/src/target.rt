//! Paths written for the target of a request.

ghost use Rattle.std.specs.Prelude.{◌≡◌, ◌++◌, map, IfOk, OnOk, string_bytes};
ghost use Rattle.rs_path.specs.Paths.{text_of};
ghost use Rattle.rs_path.specs.Targets.{escaped};

use crate::name::Name;
use crate::no_memory::NoMemory;
use percent_encoding::{AsciiSet, NON_ALPHANUMERIC, ascii_set, percent_encode};
use std::alloc::Global;

/// Every byte of ASCII but letters, digits, `-`, `.`, `_` and `~` (RFC 3986, section 2.3).
const RESERVED: AsciiSet = ascii_set!(
    NON_ALPHANUMERIC
        .remove(b'-')
        .remove(b'.')
        .remove(b'_')
        .remove(b'~')
);

/// The names escaped, each behind a slash, and a slash at the end of a folder.
pub(crate) fn target_of(alloc: Global, names: &[Name], folder: bool) -> Result<String, NoMemory>
    ensures { IfOk result (λ text. string_bytes text ≡ text_of (map escaped names.now) folder) }
{
    let mut text = String::new(alloc);
    for name in names {
        text.push('/')?;
        push_escaped(&mut text, name)?;
    }
    if folder {
        text.push('/')?;
    }
    Ok(text)
}

/// The name escaped.
pub(crate) fn escaped_name(alloc: Global, name: &Name) -> Result<String, NoMemory>
    ensures { IfOk result (λ text. string_bytes text ≡ escaped name.now) }
{
    let mut text = String::new(alloc);
    push_escaped(&mut text, name)?;
    Ok(text)
}

fn push_escaped(text: &mut String, name: &Name) -> Result<(), NoMemory>
    ensures { OnOk result (string_bytes text.new ≡ string_bytes text.old ++ escaped name.now) }
{
    percent_encode(name.as_slice(), RESERVED).append_to(text)?;
    Ok(())
}
