//! Texts escaped for HTML.

ghost use Rattle.std.specs.Prelude.{◌≡◌, ◌++◌, OnOk, option_map};
ghost use Rattle.rs_grant.specs.Escapes.{reference_of, escape_byte, escaped_text};

use rs_path::NoMemory;

/// Appends the text with `&`, `<`, `>`, `"` and `'` as references.
pub(crate) fn push_escaped(out: &mut Vec<u8>, text: &[u8]) -> Result<(), NoMemory>
    ensures ok { OnOk result (out.new.items ≡ out.old.items ++ escaped_text text.now) }
{
    for byte in text {
        push_byte(out, *byte)?;
    }
    Ok(())
}

fn push_byte(out: &mut Vec<u8>, byte: u8) -> Result<(), NoMemory>
    ensures ok { OnOk result (out.new.items ≡ out.old.items ++ escape_byte byte) }
{
    let Some(reference) = reference_of(byte) else {
        out.push(byte)?;
        return Ok(());
    };
    out.extend_from_slice(reference.as_bytes())?;
    Ok(())
}

fn reference_of(byte: u8) -> Option<&'static str>
    ensures { option_map (λ reference. reference.now) result ≡ reference_of byte }
{
    match byte {
        b'&' => Some("&amp;"),
        b'<' => Some("&lt;"),
        b'>' => Some("&gt;"),
        b'"' => Some("&quot;"),
        b'\'' => Some("&#39;"),
        _ => None,
    }
}
