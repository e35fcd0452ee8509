//! Conditions: what is read, where what is no condition is refused, and that reading answers with ample memory.

use rs_rules::{Cond, CondFault};
use std::alloc::{AllocError, Global};
use std::test::Fail;

// The place of the fault of a short text.
fn place_of(alloc: Global, text: &[u8]) -> Option<u32> {
    if text.len() > 100 {
        return None;
    }
    match Cond::read(alloc, text) {
        Err(CondFault::Bad { place }) => Some(place),
        _ => None,
    }
}

// The tags of a short text, each behind a comma, a weak one behind `W`.
fn tags_of(alloc: Global, text: &[u8]) -> Result<Option<Vec<u8>>, AllocError> {
    if text.len() > 100 {
        return Ok(None);
    }
    let Ok(Cond::Tags(tags)) = Cond::read(alloc, text) else {
        return Ok(None);
    };
    let mut spelled = Vec::new(alloc);
    for tag in tags.as_slice() {
        spelled.push(b',')?;
        if tag.weak {
            spelled.push(b'W')?;
        }
        spelled.extend_from_slice(tag.tag.as_slice())?;
    }
    Ok(Some(spelled))
}

fn is_any(alloc: Global, text: &[u8]) -> bool {
    text.len() < 100 && matches!(Cond::read(alloc, text), Ok(Cond::Any))
}

const REFUSED: [(&[u8], u32); 16] = [
    (b"\"1", 0),
    (b"\"1\", x", 5),
    (b"", 0),
    (b" , ,\t", 0),
    (b"2", 0),
    (b" x", 1),
    (b"\"1\"x", 0),
    (b"\"1\" \"2\"", 0),
    (b"w/\"1\"", 0),
    (b"W/1", 0),
    (b"W/ \"1\"", 0),
    (b"\"a b\"", 0),
    (b"\"a\x7F\"", 0),
    (b"*, \"1\"", 0),
    (b"*, *", 0),
    (b"\"1\" ,\t*", 6),
];

const READ: [(&[u8], &[u8]); 8] = [
    (b"\"1\", W/\"2\"", b",1,W2"),
    (b"\"1\",\"2\"", b",1,2"),
    (b"\t\"1\" ", b",1"),
    (b",, \"1\" ,", b",1"),
    (b"\"a,b\",\"c\"", b",a,b,c"),
    (b"\"\"", b""),
    (b"\"\x80\", \"1\"", b",1"),
    (b"W/\"\"", b""),
];

#[test]
fn refuses_what_is_no_list_of_tags(rt: HostRuntime) {
    for (text, place) in REFUSED {
        assert_eq!(rt; place_of(rt.alloc(), text), Some(place));
    }
}

#[test]
fn reads_lists_of_tags(rt: HostRuntime) -> Result<(), Fail> {
    for (text, spelled) in READ {
        let tags = tags_of(rt.alloc(), text)?.ok_or("no list")?;
        assert_eq!(rt; tags.as_slice(), spelled);
    }
    Ok(())
}

#[test]
fn reads_any(rt: HostRuntime) {
    assert!(rt; is_any(rt.alloc(), b"*"));
    assert!(rt; !is_any(rt.alloc(), b"\"*\""));
}
