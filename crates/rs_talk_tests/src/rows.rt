//! Cases as rows of a text, which a test reads when it runs.

use std::alloc::{AllocError, Global};
use std::test::Fail;

// Where in a cell the reading is.
#[derive(Clone, Copy, Debug, PartialEq, Eq)]
enum Spot {
    Plain,
    // After a backslash.
    Escaped,
    // Before the two digits of a byte.
    Digits,
    // Before the second, behind this one.
    Digit(u8),
}

/// The bytes that a cell writes. After a backslash stand `r` and `n` for CR and LF, `x` and two hexadecimal digits for a byte,
/// and else the byte itself.
pub(crate) fn bytes_of(alloc: Global, cell: &str) -> Result<Vec<u8>, AllocError> {
    let mut bytes = Vec::new(alloc);
    let mut spot = Spot::Plain;
    for byte in cell.as_bytes() {
        let byte = *byte;
        spot = match spot {
            Spot::Plain if byte == b'\\' => Spot::Escaped,
            Spot::Escaped if byte == b'x' => Spot::Digits,
            Spot::Digits => Spot::Digit(digit(byte)),
            Spot::Plain => {
                bytes.push(byte)?;
                Spot::Plain
            }
            Spot::Escaped => {
                bytes.push(escaped(byte))?;
                Spot::Plain
            }
            Spot::Digit(high) => {
                bytes.push((high << 4) | digit(byte))?;
                Spot::Plain
            }
        };
    }
    Ok(bytes)
}

fn escaped(byte: u8) -> u8 {
    match byte {
        b'r' => b'\r',
        b'n' => b'\n',
        _ => byte,
    }
}

fn digit(byte: u8) -> u8 {
    match byte {
        b'0'..=b'9' => byte - b'0',
        b'a'..=b'f' => byte - b'a' + 10,
        _ => 0,
    }
}

/// The two cells of a row, before and behind `=>`.
pub(crate) fn cells(row: &str) -> Result<(&str, &str), Fail> {
    match row.split_once("=>") {
        Some((first, second)) => Ok((first.trim(), second.trim())),
        None => Err("a row without =>")?,
    }
}
