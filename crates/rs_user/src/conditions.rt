//! Conditions on the version.

ghost use Rattle.std.specs.Prelude.{◌≡◌};
ghost use Rattle.rs_rules.specs.Conditions.{lists_strong, lists_weak, meets, excludes};

use itoa::Buffer;
use rs_rules::{Cond, EntityTag};

/// Whether If-Match holds of what is there or not and has the version (RFC 9110, section 13.1.1).
pub(crate) fn meets(if_match: &Cond, there: bool, version: u64) -> bool
    ensures meets { result ≡ meets if_match.now there version }
{
    match if_match {
        Cond::Missing => true,
        Cond::Any => there,
        Cond::Tags(tags) => there && lists_strong(tags.as_slice(), version),
    }
}

/// Whether If-None-Match names what is there and has the version (RFC 9110, section 13.1.2).
pub(crate) fn excludes(if_none: &Cond, there: bool, version: u64) -> bool
    ensures named { result ≡ excludes if_none.now there version }
{
    match if_none {
        Cond::Missing => false,
        Cond::Any => there,
        Cond::Tags(tags) => there && lists_weak(tags.as_slice(), version),
    }
}

fn lists_strong(tags: &[EntityTag], version: u64) -> bool
    ensures lists { result ≡ lists_strong tags.now version }
{
    let mut buffer = Buffer::new();
    let text = buffer.format(version).as_bytes();
    tags.iter()
        .any(|one| !one.weak && one.tag.as_slice() == text)
}

fn lists_weak(tags: &[EntityTag], version: u64) -> bool
    ensures lists { result ≡ lists_weak tags.now version }
{
    let mut buffer = Buffer::new();
    let text = buffer.format(version).as_bytes();
    tags.iter().any(|one| one.tag.as_slice() == text)
}
