//! Fields written.

ghost use Rattle.std.specs.Prelude.{◌≡◌, ◌++◌, OnOk};
ghost use Rattle.form_urlencoded.specs.Form.{append_pair, byte_serialize, separator};

use form_urlencoded::byte_serialize;
use rs_path::NoMemory;

/// Appends a field to a form, with `&` before it where the form isn't empty.
///
/// Letters, digits and `*-._` stand for themselves, a space is `+`, and any other byte is escaped. Where memory runs
/// out, a part of the field may have been appended.
pub fn append_field(form: &mut Vec<u8>, name: &str, value: &[u8]) -> Result<(), NoMemory>
    ensures ok { OnOk result (form.new.items ≡ append_pair form.old.items name.now value.now) }
{
    append_separator(form)?;
    append_escaped(form, name.as_bytes())?;
    form.push(b'=')?;
    append_escaped(form, value)?;
    Ok(())
}

fn append_separator(form: &mut Vec<u8>) -> Result<(), NoMemory>
    ensures ok { OnOk result (form.new.items ≡ form.old.items ++ separator form.old.items) }
{
    if !form.is_empty() {
        form.push(b'&')?;
    }
    Ok(())
}

fn append_escaped(form: &mut Vec<u8>, text: &[u8]) -> Result<(), NoMemory>
    ensures ok { OnOk result (form.new.items ≡ form.old.items ++ byte_serialize text.now) }
{
    for piece in byte_serialize(text) {
        form.extend_from_slice(piece.as_bytes())?;
    }
    Ok(())
}
