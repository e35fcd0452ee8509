//! One item read from a value of JSON.

ghost use Rattle.std.specs.Prelude.{◌≡◌, IfOk, option_map};
ghost use Rattle.serde_json.specs.View.{view};
ghost use Rattle.rs_folder.specs.FolderReadings.{entry_reading, item_with, text_at, item_tag, item_kind, item_length, key_name, is_folder_key};

use rs_path::{Entry, Kind, Name, NoMemory, Tag};
use serde_json::Value;
use std::alloc::Global;

/// The item at a key, or None where its name or its tag is none.
pub(crate) fn read_item(alloc: Global, key: &str, value: &Value) -> Result<Option<Entry>, NoMemory>
    ensures { IfOk result (λ item. item ≡ entry_reading key.now (view value.now)) }
{
    let (name, folder) = split_key(key.as_bytes());
    let Some(name) = Name::read(alloc, name)? else {
        return Ok(None);
    };
    let Some(tag) = read_tag(alloc, value)? else {
        return Ok(None);
    };
    Ok(Some(item_with(alloc, name, folder, tag, value)?))
}

// The item with this tag; a folder has neither content type nor length.
fn item_with(
    alloc: Global,
    name: Name,
    folder: bool,
    tag: Tag,
    value: &Value,
) -> Result<Entry, NoMemory>
    ensures { IfOk result (λ item. item ≡ item_with name folder tag (view value.now)) }
{
    if folder {
        return Ok(Entry {
            name,
            folder,
            tag,
            kind: None,
            length: None,
        });
    }
    Ok(Entry {
        name,
        folder,
        tag,
        kind: read_kind(alloc, value)?,
        length: read_length(value),
    })
}

// The name, and whether a slash followed it.
fn split_key(key: &[u8]) -> (&[u8], bool)
    ensures name { result.0.now ≡ key_name key.now }
    ensures folder { result.1 ≡ is_folder_key key.now }
{
    match key.strip_suffix(b"/") {
        Some(name) => (name, true),
        None => (key, false),
    }
}

fn read_tag(alloc: Global, value: &Value) -> Result<Option<Tag>, NoMemory>
    ensures { IfOk result (λ tag. tag ≡ item_tag (view value.now)) }
{
    match text_at(value, "ETag") {
        Some(text) => Tag::read(alloc, text.as_bytes()),
        None => Ok(None),
    }
}

fn read_kind(alloc: Global, value: &Value) -> Result<Option<Kind>, NoMemory>
    ensures { IfOk result (λ kind. kind ≡ item_kind (view value.now)) }
{
    match text_at(value, "Content-Type") {
        Some(text) => Kind::read(alloc, text.as_bytes()),
        None => Ok(None),
    }
}

fn read_length(value: &Value) -> Option<u64>
    ensures { result ≡ item_length (view value.now) }
{
    value.get("Content-Length").and_then(Value::as_u64)
}

fn text_at<'a>(value: &'a Value, key: &str) -> Option<&'a str>
    ensures { option_map (λ text. text.now) result ≡ text_at key.now (view value.now) }
{
    match value.get(key) {
        Some(found) => found.as_str(),
        None => None,
    }
}
