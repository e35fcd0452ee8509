//! Folder descriptions written.

ghost use Rattle.std.specs.Prelude.{◌≡◌, ◌++◌, Ok, OnOk, OnErr};
ghost use Rattle.std.specs.List.{flat_map};
ghost use Rattle.rs_folder.specs.Descriptions.{folder_text};
ghost use Rattle.rs_folder.specs.FolderTokens.{entry_tokens, opening_tokens, closing_tokens, folder_tokens};
ghost use Rattle.rs_folder.specs.FolderReadings.{folder_reading};

use crate::describing::put_entry;
use json::Writer;
use rs_path::{Entry, Items, NoMemory};
use std::alloc::Global;
use std::mem;

/// What `@context` says of a folder description (draft-dejong-remotestorage, section 4).
pub const CONTEXT: &str = "http://remotestorage.io/spec/folder-description";

/// Appends the folder description of the items: compact JSON with its keys in byte order, as `serde_json` prints it.
///
/// It has the members `@context` and `items`. In `items` stands each item at its key, a folder's with `/` at the
/// end, with its `ETag`, and a document also with `Content-Length` and `Content-Type` where it has them. Where
/// memory runs out, `out` is as before.
pub fn write_folder(alloc: Global, items: &Items, out: &mut Vec<u8>) -> Result<(), NoMemory>
    ensures ok { OnOk result (out.new.items ≡ out.old.items ++ folder_text items.now) }
    ensures err { OnErr result (out.new.items ≡ out.old.items) }
    ensures back { folder_reading (folder_text items.now) ≡ Ok items.now }
{
    let before = out.len();
    let mut writer = Writer::new(mem::replace(out, Vec::new(alloc)));
    match put_folder(alloc, items.as_slice(), &mut writer) {
        Ok(()) => {
            *out = writer.into_inner();
            Ok(())
        }
        Err(fault) => {
            *out = writer.into_inner();
            out.truncate(before);
            Err(fault)
        }
    }
}

fn put_folder(alloc: Global, entries: &[Entry], writer: &mut Writer) -> Result<(), NoMemory>
    ensures before { writer.new.before ≡ writer.old.before }
    ensures tokens { OnOk result (writer.new.tokens ≡ writer.old.tokens ++ folder_tokens entries.now) }
{
    put_opening(writer)?;
    put_items(alloc, entries, writer)?;
    put_closing(writer)?;
    Ok(())
}

#[tactic(auto, using(std::proofs::Common::append_assoc))]
fn put_opening(writer: &mut Writer) -> Result<(), NoMemory>
    ensures before { writer.new.before ≡ writer.old.before }
    ensures tokens { OnOk result (writer.new.tokens ≡ writer.old.tokens ++ opening_tokens) }
{
    writer.begin_object()?;
    writer.key("@context")?;
    writer.string(CONTEXT)?;
    writer.key("items")?;
    writer.begin_object()?;
    Ok(())
}

#[tactic(auto, using(std::proofs::Common::append_assoc))]
fn put_closing(writer: &mut Writer) -> Result<(), NoMemory>
    ensures before { writer.new.before ≡ writer.old.before }
    ensures tokens { OnOk result (writer.new.tokens ≡ writer.old.tokens ++ closing_tokens) }
{
    writer.end_object()?;
    writer.end_object()?;
    Ok(())
}

// Each item, at its key.
fn put_items(alloc: Global, entries: &[Entry], writer: &mut Writer) -> Result<(), NoMemory>
    ensures before { writer.new.before ≡ writer.old.before }
    ensures tokens { OnOk result (writer.new.tokens ≡ writer.old.tokens ++ flat_map entry_tokens entries.now) }
{
    let mut room = String::new(alloc);
    for entry in entries {
        put_entry(entry, &mut room, writer)?;
    }
    Ok(())
}
