//! Rows read as records.

ghost use Rattle.std.specs.Prelude.{◌≡◌, ◌+◌, ◌≤◌, ◌^◌, IfOk, IsTrue, MatchResult, Ok, Some, None};
ghost use Rattle.rs_record.specs.Records.{is_record, body_limit};
ghost use Rattle.rs_record.specs.Rows.{spelling};
ghost use Rattle.rs_row.specs.RowFields.{IsRowFault};
ghost use Rattle.rs_record.specs.RowReadings.{record_reading, first_format, second_format, put_reading, remove_reading, grant_reading, revoke_reading, written_put_reading, written_remove_reading, document_reading_at, ReadsAsRecord};

use crate::parts::look_at_parts;
use crate::records::Record;
use rs_path::{Bytes, Kind, MAX_BODY, MAX_PLAIN_BODY, Path};
use rs_row::{
    RowFault, read_body, read_bytes, read_document_field, read_end, read_kind_field,
    read_scopes_field,
};
use rs_scope::Token;
use sha2::{Digest, Sha256};
use std::alloc::Global;

/// The record that the row spells, as `encode` writes it.
///
/// What is refused, and at which place, says `record_reading`: the first field with a wrong value at its first byte,
/// a field that is cut short at the row's length, a surplus byte at its own place. A length and its text are two
/// fields; only a body's length can be wrong itself. A digest that isn't the body's is refused last, at 18.
pub fn decode(alloc: Global, row: &[u8]) -> Result<Record, RowFault>
    ensures read { ReadsAsRecord result (record_reading row.now) }
    ensures lawful { IfOk result (λ it. IsTrue (is_record it)) }
    ensures canonical { IfOk result (λ it. spelling it ≡ row.now) }
{
    let it = read_record(alloc, row)?;
    look_at_parts(&it);
    Ok(it)
}

fn read_record(alloc: Global, row: &[u8]) -> Result<Record, RowFault>
    ensures { ReadsAsRecord result (record_reading row.now) }
{
    match row {
        [1, rest @ ..] => read_first_format(alloc, rest),
        [2, rest @ ..] => read_second_format(alloc, rest),
        _ => Err(RowFault::Bad { place: 0 }),
    }
}

fn read_first_format(alloc: Global, row: &[u8]) -> Result<Record, RowFault>
    ensures { ReadsAsRecord result (first_format row.now) }
{
    match row {
        [1, rest @ ..] => read_put(alloc, rest),
        [2, rest @ ..] => read_remove(alloc, None, 2, rest),
        [3, rest @ ..] => read_grant(alloc, rest),
        [4, rest @ ..] => read_revoke(rest),
        _ => Err(RowFault::Bad { place: 1 }),
    }
}

fn read_second_format(alloc: Global, row: &[u8]) -> Result<Record, RowFault>
    ensures { ReadsAsRecord result (second_format row.now) }
{
    match row {
        [1, rest @ ..] => read_written_put(alloc, rest),
        [2, rest @ ..] => read_written_remove(alloc, rest),
        _ => Err(RowFault::Bad { place: 1 }),
    }
}

fn read_put(alloc: Global, row: &[u8]) -> Result<Record, RowFault>
    ensures { ReadsAsRecord result (put_reading row.now) }
{
    let (path, kind, body) = read_document(alloc, MAX_PLAIN_BODY, 2, row)?;
    Ok(Record::Put {
        path,
        kind,
        body,
        writer: None,
    })
}

fn read_remove(
    alloc: Global,
    writer: Option<Token>,
    place: u32,
    row: &[u8],
) -> Result<Record, RowFault>
    requires { place ≤ 2 ^ 20 }
    ensures { ReadsAsRecord result (remove_reading writer place row.now) }
{
    let (path, place, row) = read_document_field(alloc, place, row)?;
    read_end(place, row)?;
    Ok(Record::Remove { path, writer })
}

fn read_grant(alloc: Global, row: &[u8]) -> Result<Record, RowFault>
    ensures { ReadsAsRecord result (grant_reading row.now) }
{
    let (token, place, row) = read_bytes(2, row, 16)?;
    let token = Token::of_bytes(token);
    let (scopes, place, row) = read_scopes_field(alloc, place, row)?;
    read_end(place, row)?;
    Ok(Record::Grant { token, scopes })
}

fn read_revoke(row: &[u8]) -> Result<Record, RowFault>
    ensures { ReadsAsRecord result (revoke_reading row.now) }
{
    let (token, place, row) = read_bytes(2, row, 16)?;
    let token = Token::of_bytes(token);
    read_end(place, row)?;
    Ok(Record::Revoke { token })
}

fn read_written_put(alloc: Global, row: &[u8]) -> Result<Record, RowFault>
    ensures { ReadsAsRecord result (written_put_reading row.now) }
{
    let (writer, place, row) = read_bytes(2, row, 16)?;
    let writer = Token::of_bytes(writer);
    let (digest, place, row) = read_bytes(place, row, 32)?;
    let (path, kind, body) = read_document(alloc, MAX_BODY, place, row)?;
    if Sha256::digest(body.as_slice()).as_slice() != digest {
        return Err(RowFault::Bad { place: 18 });
    }
    Ok(Record::Put {
        path,
        kind,
        body,
        writer: Some(writer),
    })
}

fn read_written_remove(alloc: Global, row: &[u8]) -> Result<Record, RowFault>
    ensures { ReadsAsRecord result (written_remove_reading row.now) }
{
    let (writer, place, row) = read_bytes(2, row, 16)?;
    read_remove(alloc, Some(Token::of_bytes(writer)), place, row)
}

// A document's path, content type and body, and nothing behind them.
fn read_document(
    alloc: Global,
    limit: usize,
    place: u32,
    row: &[u8],
) -> Result<(Path, Kind, Bytes), RowFault>
    requires near { place ≤ 2 ^ 20 }
    requires limit { limit ≤ 2 ^ 27 }
    ensures { MatchResult result
        (λ read. document_reading_at limit place row.now ≡ Ok (record { path = read.0; kind = read.1; body = read.2 }))
        (λ fault. IsRowFault fault (document_reading_at limit place row.now)) }
{
    let (path, place, row) = read_document_field(alloc, place, row)?;
    let (kind, place, row) = read_kind_field(alloc, place, row)?;
    let (body, place, row) = read_body(alloc, limit, place, row)?;
    read_end(place, row)?;
    Ok((path, kind, body))
}
