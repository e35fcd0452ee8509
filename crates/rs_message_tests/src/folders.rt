//! Folder descriptions in both directions, their faults, and what the contracts leave to a run: that a call with
//! ample memory answers.

use crate::rows::{bytes_of, cells};
use rs_folder::{FolderFault, read_folder, write_folder};
use rs_path::{Bytes, Entry, Items, Kind, Name, NoMemory, Tag};
use std::alloc::Global;
use std::test::Fail;

const EMPTY: &[u8] =
    b"{\"@context\":\"http://remotestorage.io/spec/folder-description\",\"items\":{}}";

const ONE: &[u8] =
    b"{\"@context\":\"http://remotestorage.io/spec/folder-description\",\"items\":{\"x\":{\"Content-Length\":5,\"Content-Type\":\"text/plain\",\"ETag\":\"2\"}}}";

fn text_of(alloc: Global, items: &Items) -> Result<Vec<u8>, NoMemory> {
    let mut out = Vec::new(alloc);
    write_folder(alloc, items, &mut out)?;
    Ok(out)
}

// The text of a description with these items.
fn around(alloc: Global, items: &[u8]) -> Result<Vec<u8>, NoMemory> {
    let mut text = Vec::new(alloc);
    text.extend_from_slice(
        b"{\"@context\":\"http://remotestorage.io/spec/folder-description\",\"items\":{",
    )?;
    text.extend_from_slice(items)?;
    text.extend_from_slice(b"}}")?;
    Ok(text)
}

fn bad_item(alloc: Global, key: &[u8]) -> Result<FolderFault, NoMemory> {
    Ok(FolderFault::BadItem {
        name: Bytes::of(Vec::from_slice(alloc, key)?),
    })
}

fn fault_of(alloc: Global, text: &[u8]) -> Option<FolderFault> {
    read_folder(alloc, text).err()
}

// A name of a number of letters, as a key with a tag.
fn long_key(alloc: Global, letters: usize) -> Result<Vec<u8>, NoMemory> {
    let mut key = Vec::new(alloc);
    key.push(b'"')?;
    for _ in 0..letters {
        key.push(b'n')?;
    }
    key.extend_from_slice(b"\":{\"ETag\":\"1\"}")?;
    Ok(key)
}

#[test]
fn one_document_goes_both_ways(rt: HostRuntime) -> Result<(), Fail> {
    let alloc = rt.alloc();
    let mut items = Items::new(alloc);
    items.push(Entry {
        name: Name::read(alloc, b"x")?.ok_or("a name")?,
        folder: false,
        tag: Tag::of(alloc, 2)?,
        kind: Kind::read(alloc, b"text/plain")?,
        length: Some(5),
    })?;
    let text = text_of(alloc, &items)?;
    assert_eq!(rt; text.len(), 136);
    assert_eq!(rt; text.as_slice(), ONE);
    let read = read_folder(alloc, ONE)?;
    assert!(rt; read == items);
    assert_eq!(rt; read.as_slice().len(), 1);
    assert_eq!(rt; text_of(alloc, &read)?.as_slice(), ONE);
    Ok(())
}

#[test]
fn no_items_go_both_ways(rt: HostRuntime) -> Result<(), Fail> {
    let alloc = rt.alloc();
    let mut out = Vec::new(alloc);
    out.push(b'>')?;
    write_folder(alloc, &Items::new(alloc), &mut out)?;
    assert_eq!(rt; out.len(), 74);
    assert_eq!(rt; &out.as_slice()[1..], EMPTY);
    assert!(rt; read_folder(alloc, EMPTY)?.as_slice().is_empty());
    Ok(())
}

const NO_DESCRIPTIONS: &str = r#"
=> NotJson
{ => NotJson
{"items":{} => NotJson
{"items":{}}} => NotJson
{"items":{},} => NotJson
{'items':{}} => NotJson
{"items":{},"n":1e999} => NotJson
{"items":{},"\xff":1} => NotJson
[] => NoItems
5 => NoItems
null => NoItems
"items" => NoItems
{} => NoItems
{"items":[]} => NoItems
{"items":null,"Items":{}} => NoItems
"#;

#[test]
fn what_is_no_description_is_refused(rt: HostRuntime) -> Result<(), Fail> {
    let alloc = rt.alloc();
    for row in NO_DESCRIPTIONS.trim().split('\n') {
        let (text, fault) = cells(row)?;
        let text = bytes_of(alloc, text)?;
        let wanted = match fault {
            "NotJson" => FolderFault::NotJson,
            "NoItems" => FolderFault::NoItems,
            _ => Err("no such fault")?,
        };
        assert_eq!(&rt; fault_of(alloc, text.as_slice()), Some(wanted));
    }
    Ok(())
}

const WRONG_ITEMS: &str = r#"
"..":{"ETag":"1"} => ..
"../":{"ETag":"1"} => ../
".":{"ETag":"1"} => .
"":{"ETag":"1"} =>
"/":{"ETag":"1"} => /
"a/b":{"ETag":"1"} => a/b
"a//":{"ETag":"1"} => a//
"a\\u0000":{"ETag":"1"} => a\0
"a":{} => a
"a":{"ETag":2} => a
"a":{"ETag":""} => a
"a":{"ETag":"\\"2\\""} => a
"a":{"ETag":"1 2"} => a
"a/":{"etag":"1"} => a/
"a":"1" => a
"c":{},"b/":{},"b":{"ETag":"1"},"d":{} => b/
"a":{"ETag":"1"},"a":5 => a
"#;

#[test]
fn the_first_wrong_item_is_named(rt: HostRuntime) -> Result<(), Fail> {
    let alloc = rt.alloc();
    for row in WRONG_ITEMS.trim().split('\n') {
        let (items, key) = cells(row)?;
        let text = around(alloc, bytes_of(alloc, items)?.as_slice())?;
        let key = bytes_of(alloc, key)?;
        assert_eq!(&rt;
            fault_of(alloc, text.as_slice()),
            Some(bad_item(alloc, key.as_slice())?)
        );
    }
    Ok(())
}

#[test]
fn a_name_has_255_bytes_at_most(rt: HostRuntime) -> Result<(), Fail> {
    let alloc = rt.alloc();
    for (letters, is_read) in [(255, true), (256, false)] {
        let text = around(alloc, long_key(alloc, letters)?.as_slice())?;
        assert_eq!(rt; read_folder(alloc, text.as_slice()).is_ok(), is_read);
    }
    Ok(())
}

// Each is read, and what was read is written with the second's items.
const READ: &str = r#"
\s{\r\n\t"items" : { } }\s =>
{"items":{"x":{"ETag":"2","Content-Type":"text/plain","Content-Length":5}},"@context":7} => "x":{"Content-Length":5,"Content-Type":"text/plain","ETag":"2"}
{"items":{"b":{"ETag":"1"},"a/":{"ETag":"3"},"a":{"ETag":"2"},"B":{"ETag":"4"}}} => "B":{"ETag":"4"},"a":{"ETag":"2"},"a/":{"ETag":"3"},"b":{"ETag":"1"}
{"more":[{}],"items":{"a":{"ETag":"1","Last-Modified":"now","x":[1]}}} => "a":{"ETag":"1"}
{"items":{"a/":{"ETag":"1","Content-Type":"text/plain","Content-Length":5}}} => "a/":{"ETag":"1"}
{"items":{"a":{"ETag":"1","Content-Length":"5"}}} => "a":{"ETag":"1"}
{"items":{"a":{"ETag":"1","Content-Length":-1}}} => "a":{"ETag":"1"}
{"items":{"a":{"ETag":"1","Content-Length":5.0}}} => "a":{"ETag":"1"}
{"items":{"a":{"ETag":"1","Content-Length":18446744073709551616}}} => "a":{"ETag":"1"}
{"items":{"a":{"ETag":"1","Content-Length":18446744073709551615}}} => "a":{"Content-Length":18446744073709551615,"ETag":"1"}
{"items":{"a":{"ETag":"1","Content-Length":0,"Content-Type":" a"}}} => "a":{"Content-Length":0,"ETag":"1"}
{"items":{"a":{"ETag":"1","Content-Type":["a"]}}} => "a":{"ETag":"1"}
{"items":{"a":{"ETag":"1","ETag":"2"},"a":{"ETag":"3"}}} => "a":{"ETag":"3"}
{"items":{"..":1},"items":{"a":{"ETag":"1"}}} => "a":{"ETag":"1"}
{"items":{"caf\\u00e9\\/":{"ETag":"\\u0031"},"\\ud83d\\ude00":{"ETag":"a\\\\b"}}} => "caf\xc3\xa9/":{"ETag":"1"},"\xf0\x9f\x98\x80":{"ETag":"a\\\\b"}
"#;

#[test]
fn any_order_and_layout_is_read(rt: HostRuntime) -> Result<(), Fail> {
    let alloc = rt.alloc();
    for row in READ.trim().split('\n') {
        let (text, items) = cells(row)?;
        let read = read_folder(alloc, bytes_of(alloc, text)?.as_slice())?;
        let wanted = around(alloc, bytes_of(alloc, items)?.as_slice())?;
        assert_eq!(&rt; text_of(alloc, &read)?, wanted);
    }
    Ok(())
}

// Quotes, backslashes and control characters are written with the shortest escapes (RFC 8259, section 7).
const ESCAPED: &str = r#"
a"b => a\\"b
a\\b => a\\\\b
a\nb\tc\rd => a\\nb\\tc\\rd
\x08\x0c => \\b\\f
\x01\x1f\x7f => \\u0001\\u001f\x7f
\xc3\xa9 b => \xc3\xa9 b
"#;

#[test]
fn names_are_escaped(rt: HostRuntime) -> Result<(), Fail> {
    let alloc = rt.alloc();
    for row in ESCAPED.trim().split('\n') {
        let (name, written) = cells(row)?;
        let mut items = Items::new(alloc);
        items.push(Entry {
            name: Name::read(alloc, bytes_of(alloc, name)?.as_slice())?.ok_or("a name")?,
            folder: false,
            tag: Tag::of(alloc, 1)?,
            kind: None,
            length: None,
        })?;
        let mut item = Vec::new(alloc);
        item.push(b'"')?;
        item.extend_from_slice(bytes_of(alloc, written)?.as_slice())?;
        item.extend_from_slice(b"\":{\"ETag\":\"1\"}")?;
        let text = around(alloc, item.as_slice())?;
        assert_eq!(&rt; text_of(alloc, &items)?.as_slice(), text.as_slice());
        assert!(&rt; read_folder(alloc, text.as_slice())? == items);
    }
    Ok(())
}
