//! One item as JSON.

ghost use Rattle.std.specs.Prelude.{◌≡◌, ◌++◌, ◌∷◌, [], OnOk, IsUtf8, decimal};
ghost use Rattle.json.specs.Token.{key, string, number as number_token};
ghost use Rattle.rs_path.specs.Items.{entry_key};
ghost use Rattle.rs_folder.specs.FolderTokens.{entry_tokens, length_tokens, kind_tokens};

use json::Writer;
use rs_path::{Entry, Kind, NoMemory};

/// Puts what is said of an item, at its key. The room is for keys that have to be put together.
#[tactic(auto, using(std::proofs::Common::append_assoc))]
pub(crate) fn put_entry(
    entry: &Entry,
    room: &mut String,
    writer: &mut Writer,
) -> Result<(), NoMemory>
    ensures before { writer.new.before ≡ writer.old.before }
    ensures tokens { OnOk result (writer.new.tokens ≡ writer.old.tokens ++ entry_tokens entry.now) }
{
    put_key(entry, room, writer)?;
    writer.begin_object()?;
    put_length(&entry.length, writer)?;
    put_kind(&entry.kind, writer)?;
    put_text("ETag", entry.tag.as_slice(), writer)?;
    writer.end_object()?;
    Ok(())
}

// The key of an item: its name, with `/` at the end of a folder's.
fn put_key(entry: &Entry, room: &mut String, writer: &mut Writer) -> Result<(), NoMemory>
    ensures before { writer.new.before ≡ writer.old.before }
    ensures tokens { OnOk result (writer.new.tokens ≡ writer.old.tokens ++ key (entry_key entry.now) ∷ []) }
{
    let name = text_of(entry.name.as_slice());
    if entry.folder {
        room.clear();
        room.push_str(name)?;
        room.push_str("/")?;
        writer.key(room.as_str())?;
        return Ok(());
    }
    writer.key(name)?;
    Ok(())
}

fn put_length(length: &Option<u64>, writer: &mut Writer) -> Result<(), NoMemory>
    ensures before { writer.new.before ≡ writer.old.before }
    ensures tokens { OnOk result (writer.new.tokens ≡ writer.old.tokens ++ length_tokens length.now) }
{
    match length {
        None => Ok(()),
        Some(length) => {
            put_number("Content-Length", *length, writer)?;
            Ok(())
        }
    }
}

fn put_kind(kind: &Option<Kind>, writer: &mut Writer) -> Result<(), NoMemory>
    ensures before { writer.new.before ≡ writer.old.before }
    ensures tokens { OnOk result (writer.new.tokens ≡ writer.old.tokens ++ kind_tokens kind.now) }
{
    match kind {
        None => Ok(()),
        Some(kind) => {
            put_text("Content-Type", kind.as_slice(), writer)?;
            Ok(())
        }
    }
}

#[tactic(auto, using(std::proofs::Common::append_assoc))]
fn put_number(name: &str, number: u64, writer: &mut Writer) -> Result<(), NoMemory>
    ensures before { writer.new.before ≡ writer.old.before }
    ensures tokens { OnOk result (writer.new.tokens ≡ writer.old.tokens ++ key name.now ∷ number_token (decimal number) ∷ []) }
{
    writer.key(name)?;
    writer.u64(number)?;
    Ok(())
}

#[tactic(auto, using(std::proofs::Common::append_assoc))]
fn put_text(name: &str, text: &[u8], writer: &mut Writer) -> Result<(), NoMemory>
    requires text { IsUtf8 text.now }
    ensures before { writer.new.before ≡ writer.old.before }
    ensures tokens { OnOk result (writer.new.tokens ≡ writer.old.tokens ++ key name.now ∷ string text.now ∷ []) }
{
    writer.key(name)?;
    writer.string(text_of(text))?;
    Ok(())
}

// Bytes that are UTF-8, as a text.
fn text_of(bytes: &[u8]) -> &str
    requires { IsUtf8 bytes.now }
    ensures { result.now ≡ bytes.now }
{
    match std::str::from_utf8(bytes) {
        Ok(text) => text,
        Err(_) => unreachable!(),
    }
}
