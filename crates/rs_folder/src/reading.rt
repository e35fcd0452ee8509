//! Folder descriptions read.

ghost use Rattle.std.specs.Prelude.{◌≡◌, [], Some, Err, option_map};
ghost use Rattle.serde_json.specs.Read.{read};
ghost use Rattle.serde_json.specs.View.{view, members_view};
ghost use Rattle.rs_folder.specs.FolderReadings.{items_from, items_reading, value_reading, folder_reading, ReadsFolder};

use crate::folder_fault::FolderFault;
use crate::item::read_item;
use rs_path::{Bytes, Items};
use serde_json::{Category, Map, Value};
use std::alloc::Global;

/// The items of a folder description, whatever the order of its keys and its layout.
///
/// Other members, of the description and of an item, are ignored. A `Content-Type` that is no `Kind` and a
/// `Content-Length` that is no number below 2 to the 64th, in digits alone, are read as absent, and both are of a
/// folder. Where a key comes twice, its last value counts.
///
/// draft-dejong-remotestorage, section 4, folder description.
pub fn read_folder(alloc: Global, bytes: &[u8]) -> Result<Items, FolderFault>
    ensures read { ReadsFolder result (folder_reading bytes.now) }
{
    match Value::from_slice(alloc, bytes) {
        Ok(value) => read_value(alloc, &value),
        Err(error) => match error.classify() {
            Category::Memory => Err(FolderFault::NoMemory),
            _ => Err(FolderFault::NotJson),
        },
    }
}

fn read_value(alloc: Global, value: &Value) -> Result<Items, FolderFault>
    ensures { ReadsFolder result (value_reading (Some (view value.now))) }
{
    match members_of(value) {
        Some(members) => read_members(alloc, members),
        None => Err(FolderFault::NoItems),
    }
}

// The members of an object `items`.
fn members_of(value: &Value) -> Option<&Map<String, Value>>
    ensures { items_reading (option_map (λ members. members_view members.now.entries) result)
        ≡ value_reading (Some (view value.now)) }
{
    match value.get("items") {
        Some(items) => items.as_object(),
        None => None,
    }
}

fn read_members(alloc: Global, members: &Map<String, Value>) -> Result<Items, FolderFault>
    ensures { ReadsFolder result (items_from [] (members_view members.now.entries)) }
{
    let mut items = Items::new(alloc);
    for (key, value) in members.iter() {
        let Some(item) = read_item(alloc, key.as_str(), value)? else {
            return Err(bad_item(alloc, key.as_str()));
        };
        items.push(item)?;
    }
    Ok(items)
}

fn bad_item(alloc: Global, key: &str) -> FolderFault
    ensures { ReadsFolder (Err result) (Err (FolderFault.BadItem key.now)) }
{
    match Vec::from_slice(alloc, key.as_bytes()) {
        Ok(name) => FolderFault::BadItem {
            name: Bytes::of(name),
        },
        Err(_) => FolderFault::NoMemory,
    }
}
