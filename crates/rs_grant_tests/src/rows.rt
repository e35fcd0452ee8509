//! Cases as rows of a text, which a test reads when it runs.

ghost use Rattle.std.specs.Prelude.{◌≡◌, IfOk, IsUtf8};

use rs_path::Bytes;
use std::alloc::{AllocError, Global};
use std::test::Fail;

/// The bytes of a text.
pub(crate) fn owned(alloc: Global, text: &str) -> Result<Bytes, AllocError>
    ensures same { IfOk result (λ owned. owned ≡ text.now) }
    ensures utf8 { IfOk result IsUtf8 }
{
    Ok(Bytes::of(Vec::from_slice(alloc, text.as_bytes())?))
}

/// The two cells of a row, before and behind `=>`.
pub(crate) fn cells(row: &str) -> Result<(&str, &str), Fail> {
    match row.split_once("=>") {
        Some((first, second)) => Ok((first.trim(), second.trim())),
        None => Err("a row without =>")?,
    }
}

/// A text of UTF-8, or Fail.
pub(crate) fn text_of(bytes: &[u8]) -> Result<&str, Fail> {
    match std::str::from_utf8(bytes) {
        Ok(text) => Ok(text),
        Err(_) => Err("no text")?,
    }
}

/// The text with this one in place of each mark.
pub(crate) fn filled(
    alloc: Global,
    text: &str,
    mark: char,
    with: &str,
) -> Result<String, AllocError> {
    let mut filled = String::new(alloc);
    for c in text.chars() {
        if c == mark {
            filled.push_str(with)?;
        } else {
            filled.push(c)?;
        }
    }
    Ok(filled)
}
