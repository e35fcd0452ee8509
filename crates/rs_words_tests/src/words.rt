//! Readings with their faults and places, both spellings, and what the contracts leave to a run: that a call
//! with ample memory answers.

ghost use Rattle.std.specs.Prelude.{◌≡◌, true, None, IfOk};

use rs_path::{
    Bytes, Child, Entry, Items, Kind, Name, NoMemory, Path, PathFault, PathWhy, Tag, is_user,
};
use std::alloc::Global;
use std::cmp::Ordering;
use std::collections::BTreeMap;
use std::test::Fail;

const ROOT: &[u8] = b"/";

fn fault_of(alloc: Global, text: &[u8]) -> Option<(PathWhy, u32)> {
    match Path::read(alloc, text) {
        Err(PathFault::Bad { why, place }) => Some((why, place)),
        _ => None,
    }
}

fn plain_fault_of(alloc: Global, text: &[u8]) -> Option<(PathWhy, u32)> {
    match Path::read_plain(alloc, text) {
        Err(PathFault::Bad { why, place }) => Some((why, place)),
        _ => None,
    }
}

fn target_of(alloc: Global, path: &Path) -> Result<Vec<u8>, NoMemory> {
    let mut out = Vec::new(alloc);
    path.write_target(&mut out)?;
    Ok(out)
}

fn plain_of(alloc: Global, path: &Path) -> Result<Vec<u8>, NoMemory> {
    let mut out = Vec::new(alloc);
    path.write_plain(&mut out)?;
    Ok(out)
}

// `/a` a number of times, and then the end.
fn deep(alloc: Global, names: usize, end: &[u8]) -> Result<Vec<u8>, NoMemory> {
    let mut text = Vec::new(alloc);
    for _ in 0..names {
        text.extend_from_slice(b"/a")?;
    }
    text.extend_from_slice(end)?;
    Ok(text)
}

// A slash, a word a number of times, and then the end.
fn long(alloc: Global, word: &[u8], times: usize, end: &[u8]) -> Result<Vec<u8>, NoMemory> {
    let mut text = Vec::new(alloc);
    text.push(b'/')?;
    for _ in 0..times {
        text.extend_from_slice(word)?;
    }
    text.extend_from_slice(end)?;
    Ok(text)
}

#[test]
fn bytes_are_copied(rt: HostRuntime) -> Result<(), Fail> {
    let bytes = Bytes::of(b"hello".to_vec(rt.alloc())?);
    let copied = bytes.copy()?;
    assert_eq!(rt; copied.as_slice(), b"hello".as_slice());
    Ok(())
}

#[test]
fn escaped_texts_are_refused_with_cause_and_place(rt: HostRuntime) -> Result<(), Fail> {
    let rows: [(&[u8], PathWhy, u32); 21] = [
        (b"", PathWhy::Empty, 0),
        (b"a", PathWhy::Empty, 0),
        (b"a/b", PathWhy::Empty, 0),
        (b"//", PathWhy::Empty, 1),
        (b"//a", PathWhy::Empty, 1),
        (b"/a//b", PathWhy::Empty, 3),
        (b"/a//", PathWhy::Empty, 3),
        (b"/%2F", PathWhy::Slash, 1),
        (b"/a%2fb", PathWhy::Slash, 1),
        (b"/%00", PathWhy::Nul, 1),
        (b"/\0", PathWhy::Nul, 1),
        (b"/%FF", PathWhy::NotUtf8, 1),
        (b"/%C3", PathWhy::NotUtf8, 1),
        (b"/a%2", PathWhy::BadEscape, 1),
        (b"/%", PathWhy::BadEscape, 1),
        (b"/%%41", PathWhy::BadEscape, 1),
        (b"/a/%4g/b", PathWhy::BadEscape, 3),
        (b"/a/../b", PathWhy::Dots, 3),
        (b"/%2e%2e", PathWhy::Dots, 1),
        (b"/%2E", PathWhy::Dots, 1),
        (b"/%00%2F%FF", PathWhy::Slash, 1),
    ];
    for (text, why, place) in rows {
        assert_eq!(rt; fault_of(rt.alloc(), text), Some((why, place)));
    }
    Ok(())
}

#[test]
fn each_cause_is_told_of_the_last_segment(rt: HostRuntime) -> Result<(), Fail> {
    let rows: [(&[u8], PathWhy); 6] = [
        (b"//a", PathWhy::Empty),
        (b"/%2F", PathWhy::Slash),
        (b"/%00/", PathWhy::Nul),
        (b"/%FF", PathWhy::NotUtf8),
        (b"/%zz", PathWhy::BadEscape),
        (b"/..", PathWhy::Dots),
    ];
    for (end, why) in rows {
        let text = deep(rt.alloc(), 31, end)?;
        assert_eq!(rt; fault_of(rt.alloc(), text.as_slice()), Some((why, 63)));
        let text = deep(rt.alloc(), 32, end)?;
        assert_eq!(rt;
            fault_of(rt.alloc(), text.as_slice()),
            Some((PathWhy::Deep, 65))
        );
    }
    Ok(())
}

#[test]
fn plain_texts_have_no_escapes(rt: HostRuntime) -> Result<(), Fail> {
    let rows: [(&[u8], PathWhy, u32); 6] = [
        (b"", PathWhy::Empty, 0),
        (b"/a//", PathWhy::Empty, 3),
        (b"/\0", PathWhy::Nul, 1),
        (b"/\xFF", PathWhy::NotUtf8, 1),
        (b"/a/.", PathWhy::Dots, 3),
        (b"/../\xFF", PathWhy::Dots, 1),
    ];
    for (text, why, place) in rows {
        assert_eq!(rt; plain_fault_of(rt.alloc(), text), Some((why, place)));
    }
    let path = Path::read_plain(rt.alloc(), b"/%2F/%")?;
    assert_eq!(rt;
        target_of(rt.alloc(), &path)?.as_slice(),
        b"/%252F/%25".as_slice()
    );
    Ok(())
}

#[test]
fn names_have_at_most_255_bytes(rt: HostRuntime) -> Result<(), Fail> {
    let fits = long(rt.alloc(), b"%C3%A9", 127, b"a")?;
    assert_eq!(rt; fault_of(rt.alloc(), fits.as_slice()), None);
    assert!(rt; Path::read(rt.alloc(), fits.as_slice()).is_ok());
    let over = long(rt.alloc(), b"%C3%A9", 128, b"/b")?;
    assert_eq!(rt;
        fault_of(rt.alloc(), over.as_slice()),
        Some((PathWhy::NameLong, 1))
    );
    let last = deep(rt.alloc(), 31, over.as_slice())?;
    assert_eq!(rt;
        fault_of(rt.alloc(), last.as_slice()),
        Some((PathWhy::NameLong, 63))
    );
    let plain = long(rt.alloc(), b"a", 255, b"")?;
    assert!(rt; Path::read_plain(rt.alloc(), plain.as_slice()).is_ok());
    let plain = long(rt.alloc(), b"a", 256, b"")?;
    assert_eq!(rt;
        plain_fault_of(rt.alloc(), plain.as_slice()),
        Some((PathWhy::NameLong, 1))
    );
    Ok(())
}

#[test]
fn paths_have_at_most_32_names(rt: HostRuntime) -> Result<(), Fail> {
    for end in [b"".as_slice(), b"/".as_slice()] {
        let text = deep(rt.alloc(), 32, end)?;
        assert_eq!(rt; Path::read(rt.alloc(), text.as_slice())?.depth(), 32);
        let text = deep(rt.alloc(), 33, end)?;
        assert_eq!(rt;
            fault_of(rt.alloc(), text.as_slice()),
            Some((PathWhy::Deep, 65))
        );
    }
    Ok(())
}

#[test]
fn paths_are_read_and_written(rt: HostRuntime) -> Result<(), Fail> {
    let alloc = rt.alloc();
    let path = Path::read(alloc, b"/caf%c3%a9/a%20b")?;
    assert_eq!(rt; path.names().len(), 2);
    assert_eq!(rt; path.names()[0].as_slice(), b"caf\xC3\xA9".as_slice());
    assert_eq!(rt; path.names()[1].as_slice(), b"a b".as_slice());
    assert_eq!(rt;
        target_of(alloc, &path)?.as_slice(),
        b"/caf%C3%A9/a%20b".as_slice()
    );
    let plain = plain_of(alloc, &path)?;
    assert_eq!(rt; plain.as_slice(), b"/caf\xC3\xA9/a b".as_slice());
    assert!(rt; Path::read_plain(alloc, plain.as_slice())? == path);
    assert!(rt; path.copy()? == path);
    Ok(())
}

#[test]
fn parents_ancestors_and_children(rt: HostRuntime) -> Result<(), Fail> {
    let alloc = rt.alloc();
    let path = Path::read(alloc, b"/caf%C3%A9/a%20b")?;
    let parent = path.parent()?.ok_or("no parent")?;
    assert_eq!(rt;
        target_of(alloc, &parent)?.as_slice(),
        b"/caf%C3%A9/".as_slice()
    );
    let ancestors = path.ancestors()?;
    assert_eq!(rt; ancestors.len(), 2);
    assert_eq!(rt; target_of(alloc, &ancestors[0])?.as_slice(), ROOT);
    assert!(rt; ancestors[1] == parent);
    let name = Name::read(alloc, b"a b")?.ok_or("no name")?;
    assert!(rt; parent.is_folder());
    assert!(rt; parent.depth() < 32);
    assert!(rt; parent.child(&name, false)? == path);
    assert!(rt; ancestors[0].parent()?.is_none());
    Ok(())
}

#[test]
fn a_folder_isnt_the_document_of_its_name(rt: HostRuntime) -> Result<(), Fail> {
    let alloc = rt.alloc();
    let document = Path::read(alloc, b"/a")?;
    let folder = Path::read(alloc, b"/a/")?;
    let below = Path::read(alloc, b"/a/b")?;
    assert!(rt; document != folder);
    assert_eq!(rt; document.cmp(&folder), Ordering::Less);
    assert_eq!(rt; Path::read(alloc, b"/a-b")?.cmp(&folder), Ordering::Less);
    assert!(rt; folder.starts_with(&folder));
    assert!(rt; below.starts_with(&folder));
    assert!(rt; !document.starts_with(&folder));
    let mut map = BTreeMap::new(alloc);
    map.insert(folder, 1u8)?;
    assert_eq!(rt; map.insert(document, 2)?, None);
    assert_eq!(rt; map.get(&below), None);
    Ok(())
}

#[test]
fn names_kinds_and_tags(rt: HostRuntime) -> Result<(), Fail> {
    let alloc = rt.alloc();
    for text in [
        b"".as_slice(),
        b".".as_slice(),
        b"..".as_slice(),
        b"a/b".as_slice(),
        b"\0".as_slice(),
        b"\xFF".as_slice(),
    ] {
        assert!(rt; Name::read(alloc, text)?.is_none());
    }
    assert!(rt; Name::read(alloc, b"...")?.is_some());
    for text in [
        b"".as_slice(),
        b" a".as_slice(),
        b"a ".as_slice(),
        b"a\t".as_slice(),
        b"\x7F".as_slice(),
    ] {
        assert!(rt; Kind::read(alloc, text)?.is_none());
    }
    let kind = Kind::read(alloc, b"text/plain")?.ok_or("no kind")?;
    assert_eq!(rt; kind.copy()?.as_slice(), b"text/plain".as_slice());
    for text in [
        b"".as_slice(),
        b"\"".as_slice(),
        b"a b".as_slice(),
        b"\x7F".as_slice(),
    ] {
        assert!(rt; Tag::read(alloc, text)?.is_none());
    }
    let tag = Tag::read(alloc, b"2")?.ok_or("no tag")?;
    assert!(rt; Tag::of(alloc, 2)? == tag);
    assert_eq!(rt;
        Tag::of(alloc, u64::MAX)?.copy()?.as_slice(),
        b"18446744073709551615".as_slice()
    );
    Ok(())
}

fn folder_entry(alloc: Global, name: Name) -> Result<Entry, NoMemory>
    ensures { IfOk result (λ entry. (entry.folder ≡ true) × (entry.kind ≡ None) × (entry.length ≡ None)) }
{
    Ok(Entry {
        name,
        folder: true,
        tag: Tag::of(alloc, 5)?,
        kind: None,
        length: None,
    })
}

#[test]
fn items_are_appended_and_copied(rt: HostRuntime) -> Result<(), Fail> {
    let alloc = rt.alloc();
    let name = Name::read(alloc, b"a")?.ok_or("no name")?;
    let mut items = Items::new(alloc);
    items.push(folder_entry(alloc, name)?)?;
    assert_eq!(rt; items.as_slice().len(), 1);
    let copied = items.copy()?;
    assert_eq!(rt; copied.as_slice().len(), 1);
    assert!(rt; copied == items);
    assert!(rt; copied.as_slice()[0].copy()? == items.as_slice()[0]);
    Ok(())
}

#[test]
fn keys_are_ordered_with_their_slash(rt: HostRuntime) -> Result<(), Fail> {
    let alloc = rt.alloc();
    let name = Name::read(alloc, b"a")?.ok_or("no name")?;
    let longer = Name::read(alloc, b"a-b")?.ok_or("no name")?;
    let folder = Child {
        name: name.copy()?,
        folder: true,
    };
    let document = Child {
        name: longer.copy()?,
        folder: false,
    };
    assert_eq!(rt; document.cmp(&folder), Ordering::Less);
    assert_eq!(rt; document.cmp_name(&name, true), Ordering::Less);
    assert_eq!(rt; folder.cmp_name(&longer, false), Ordering::Greater);
    assert_eq!(rt; folder.cmp_name(&name, true), Ordering::Equal);
    assert!(rt; folder.copy()? == folder);
    let first = folder_entry(alloc, longer)?;
    let second = folder_entry(alloc, name)?;
    assert_eq!(rt; first.cmp_key(&second), Ordering::Less);
    Ok(())
}

#[test]
fn users_by_their_names(rt: HostRuntime) {
    for text in ["a", "alice", "0-9_z", "abcdefghijklmnopqrstuvwxyz012345"] {
        assert!(rt; is_user(text.as_bytes()), "{text}");
    }
    for text in [
        "",
        "Alice",
        "a b",
        "a/b",
        "a.b",
        "ä",
        "abcdefghijklmnopqrstuvwxyz0123456",
    ] {
        assert!(rt; !is_user(text.as_bytes()), "{text}");
    }
}
