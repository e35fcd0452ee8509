//! Texts written into rows, behind their lengths.

ghost use Rattle.std.specs.Prelude.{◌≡◌, ◌++◌, ◌<◌, ◌^◌, length, OnOk};
ghost use Rattle.rs_row.specs.RowTexts.{behind_1, behind_2};

use rs_path::NoMemory;

/// Appends a text behind its length of one byte. After an error the list may have a part of it.
pub fn push_behind_1(out: &mut Vec<u8>, text: &[u8]) -> Result<(), NoMemory>
    requires short { length text.now < 2 ^ 8 }
    ensures ok { OnOk result (out.new.items ≡ out.old.items ++ behind_1 text.now) }
{
    out.push(text.len() as u8)?;
    out.extend_from_slice(text)?;
    Ok(())
}

/// Appends a text behind its length of two bytes. After an error the list may have a part of it.
pub fn push_behind_2(out: &mut Vec<u8>, text: &[u8]) -> Result<(), NoMemory>
    requires short { length text.now < 2 ^ 16 }
    ensures ok { OnOk result (out.new.items ≡ out.old.items ++ behind_2 text.now) }
{
    out.extend_from_slice(&(text.len() as u16).to_be_bytes())?;
    out.extend_from_slice(text)?;
    Ok(())
}
