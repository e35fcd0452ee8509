//! The rows of known records, their faults and places, and what the contracts leave to a run: that a call with ample
//! memory answers.

use rs_path::{Bytes, Kind, Path};
use rs_record::{Record, decode, encode, encode_put};
use rs_row::RowFault;
use rs_scope::{Scopes, Token};
use std::alloc::Global;
use std::test::Fail;

const PUT: &[u8] = b"\x01\x01\x00\x08/notes/x\x0Atext/plain\x00\x00\x00\x05hello";

const REMOVE: &[u8] = b"\x01\x02\x00\x08/notes/x";

const GRANT: &[u8] =
    b"\x01\x03\x00\x01\x02\x03\x04\x05\x06\x07\x08\x09\x0A\x0B\x0C\x0D\x0E\x0F\x00\x08notes:rw";

const REVOKE: &[u8] = b"\x01\x04\x00\x01\x02\x03\x04\x05\x06\x07\x08\x09\x0A\x0B\x0C\x0D\x0E\x0F";

const WRITTEN_PUT: &[u8] =
    b"\x02\x01\x00\x01\x02\x03\x04\x05\x06\x07\x08\x09\x0A\x0B\x0C\x0D\x0E\x0F\x2C\xF2\x4D\xBA\x5F\xB0\xA3\x0E\x26\xE8\x3B\x2A\xC5\xB9\xE2\x9E\x1B\x16\x1E\x5C\x1F\xA7\x42\x5E\x73\x04\x33\x62\x93\x8B\x98\x24\x00\x08/notes/x\x0Atext/plain\x00\x00\x00\x05hello";

const WRITTEN_REMOVE: &[u8] =
    b"\x02\x02\x00\x01\x02\x03\x04\x05\x06\x07\x08\x09\x0A\x0B\x0C\x0D\x0E\x0F\x00\x08/notes/x";

fn place_of(alloc: Global, row: &[u8]) -> Option<usize> {
    match decode(alloc, row) {
        Err(RowFault::Bad { place }) => Some(place as usize),
        _ => None,
    }
}

fn known_rows() -> [&'static [u8]; 6] {
    [PUT, REMOVE, GRANT, REVOKE, WRITTEN_PUT, WRITTEN_REMOVE]
}

// The row with the byte at the index changed.
fn changed(alloc: Global, row: &[u8], index: usize, byte: u8) -> Result<Vec<u8>, Fail> {
    let mut copied = Vec::from_slice(alloc, row)?;
    if let Some(old) = copied.get_mut(index) {
        *old = byte;
    }
    Ok(copied)
}

#[test]
fn a_put_and_a_grant_have_known_rows(rt: HostRuntime) -> Result<(), Fail> {
    let alloc = rt.alloc();
    let token = Token::of_words(0x0001_0203_0405_0607, 0x0809_0A0B_0C0D_0E0F);
    let path = Path::read_plain(alloc, b"/notes/x")?;
    let kind = Kind::read(alloc, b"text/plain")?.expect(&rt, "a content type");
    let body = Bytes::of(b"hello".to_vec(alloc)?);
    let writer = Some(token);
    let mut row = Vec::new(alloc);
    encode_put(&path, &kind, &body, &writer, &mut row)?;
    assert_eq!(rt; row.as_slice(), WRITTEN_PUT);
    let put = Record::Put {
        path,
        kind,
        body,
        writer,
    };
    let mut row = Vec::new(alloc);
    encode(&put, &mut row)?;
    assert_eq!(rt; row.as_slice(), WRITTEN_PUT);
    assert_eq!(rt; row.len(), 80);
    let grant = Record::Grant {
        token,
        scopes: Scopes::read(alloc, b"notes:rw")?,
    };
    let mut row = Vec::new(alloc);
    encode(&grant, &mut row)?;
    assert_eq!(rt; row.as_slice(), GRANT);
    Ok(())
}

#[test]
fn known_rows_are_read_and_spelled_again(rt: HostRuntime) -> Result<(), Fail> {
    let alloc = rt.alloc();
    for row in known_rows() {
        let copied = decode(alloc, row)?.copy()?;
        let mut again = Vec::new(alloc);
        encode(&copied, &mut again)?;
        assert_eq!(rt; again.as_slice(), row);
    }
    Ok(())
}

#[test]
fn rows_are_refused_where_they_are_cut(rt: HostRuntime) -> Result<(), Fail> {
    let alloc = rt.alloc();
    for row in known_rows() {
        for length in 0..row.len() {
            assert_eq!(rt; place_of(alloc, &row[..length]), Some(length));
        }
        let mut longer = Vec::from_slice(alloc, row)?;
        longer.push(0)?;
        assert_eq!(rt; place_of(alloc, longer.as_slice()), Some(row.len()));
    }
    Ok(())
}

#[test]
fn wrong_bytes_are_refused_at_their_field(rt: HostRuntime) -> Result<(), Fail> {
    let alloc = rt.alloc();
    let rows: [(&[u8], usize, u8, usize); 13] = [
        (PUT, 0, 3, 0),
        (PUT, 0, 0, 0),
        (PUT, 1, 9, 1),
        (PUT, 1, 0, 1),
        (GRANT, 0, 2, 1),
        (PUT, 3, 0, 4),
        (PUT, 4, b'x', 4),
        (PUT, 11, b'/', 4),
        (PUT, 13, b' ', 13),
        (PUT, 23, 1, 23),
        (WRITTEN_PUT, 79, b'n', 18),
        (WRITTEN_PUT, 49, 0x25, 18),
        (GRANT, 27, b' ', 20),
    ];
    for (row, index, byte, place) in rows {
        let wrong = changed(alloc, row, index, byte)?;
        assert_eq!(rt; place_of(alloc, wrong.as_slice()), Some(place));
    }
    Ok(())
}

#[test]
fn lengths_and_texts_are_two_fields(rt: HostRuntime) -> Result<(), Fail> {
    let alloc = rt.alloc();
    let rows: [(&[u8], usize); 6] = [
        (b"\x01\x01\x00\x02/x\x01a\x01\x00\x00\x00", 12),
        (b"\x01\x01\x00\x02/x\x01a\x01\x00\x00\x01", 8),
        (b"\x01\x01\x00\x02/x\x00\x00\x00\x00\x00", 7),
        (b"\x01\x02\x00\x03/x/", 4),
        (b"\x01\x02\xFF\xFF/x", 6),
        (
            b"\x01\x03\x00\x01\x02\x03\x04\x05\x06\x07\x08\x09\x0A\x0B\x0C\x0D\x0E\x0F\x00\x05 *:rw",
            20,
        ),
    ];
    for (row, place) in rows {
        assert_eq!(rt; place_of(alloc, row), Some(place));
    }
    Ok(())
}
