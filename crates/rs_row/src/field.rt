//! Fields of rows. Each reading is given the place at which what is left of the row begins, and answers what the
//! field stands for, the place behind it, and what is left from there.

ghost use Rattle.std.specs.Prelude.{◌≡◌, ◌+◌, ◌≤◌, ◌<◌, length, ◌^◌, IfOk, IfNone, IfSome, MatchResult, Ok, option_map};
ghost use Rattle.rs_row.specs.RowFields.{part_at, part_1, part_2, fixed_in, text_1_in, text_2_in, u16_in, u32_in, u64_in, body_in, whole, IsRowFault};

use crate::row_fault::RowFault;
use rs_path::Bytes;
use std::alloc::Global;

/// So many bytes, at most a body's.
pub fn read_bytes(place: u32, row: &[u8], count: usize) -> Result<(&[u8], u32, &[u8]), RowFault>
    requires near { place ≤ 2 ^ 30 }
    requires few { count ≤ 2 ^ 30 }
    ensures read { MatchResult result
        (λ field. fixed_in count place row.now ≡ Ok (record { value = field.0.now; place = field.1; rest = field.2.now }))
        (λ fault. IsRowFault fault (fixed_in count place row.now)) }
    ensures near { IfOk result (λ field. field.1 ≡ place + count) }
    ensures count { IfOk result (λ field. length field.0.now ≡ count) }
{
    let Some((front, rest)) = part_at(row, count) else {
        return Err(end_of(place, row));
    };
    Ok((front, place + count as u32, rest))
}

/// A text behind its length of one byte.
pub fn read_text_1(place: u32, row: &[u8]) -> Result<(&[u8], u32, &[u8]), RowFault>
    requires near { place ≤ 2 ^ 30 }
    ensures read { MatchResult result
        (λ field. text_1_in place row.now ≡ Ok (record { value = field.0.now; place = field.1; rest = field.2.now }))
        (λ fault. IsRowFault fault (text_1_in place row.now)) }
    ensures near { IfOk result (λ field. field.1 ≤ place + 256) }
{
    let Some((text, rest)) = part_1(row) else {
        return Err(end_of(place, row));
    };
    Ok((text, place + 1 + text.len() as u32, rest))
}

/// A text behind its length of two bytes.
pub fn read_text_2(place: u32, row: &[u8]) -> Result<(&[u8], u32, &[u8]), RowFault>
    requires near { place ≤ 2 ^ 30 }
    ensures read { MatchResult result
        (λ field. text_2_in place row.now ≡ Ok (record { value = field.0.now; place = field.1; rest = field.2.now }))
        (λ fault. IsRowFault fault (text_2_in place row.now)) }
    ensures near { IfOk result (λ field. field.1 ≤ place + 65537) }
{
    let Some((text, rest)) = part_2(row) else {
        return Err(end_of(place, row));
    };
    Ok((text, place + 2 + text.len() as u32, rest))
}

/// A number of two bytes.
pub fn read_u16(place: u32, row: &[u8]) -> Result<(u16, u32, &[u8]), RowFault>
    requires near { place ≤ 2 ^ 30 }
    ensures read { MatchResult result
        (λ field. u16_in place row.now ≡ Ok (record { value = field.0; place = field.1; rest = field.2.now }))
        (λ fault. IsRowFault fault (u16_in place row.now)) }
    ensures near { IfOk result (λ field. field.1 ≡ place + 2) }
{
    let (bytes, behind, rest) = read_bytes(place, row, 2)?;
    Ok((u16::from_be_bytes([bytes[0], bytes[1]]), behind, rest))
}

/// A number of four bytes.
pub fn read_u32(place: u32, row: &[u8]) -> Result<(u32, u32, &[u8]), RowFault>
    requires near { place ≤ 2 ^ 30 }
    ensures read { MatchResult result
        (λ field. u32_in place row.now ≡ Ok (record { value = field.0; place = field.1; rest = field.2.now }))
        (λ fault. IsRowFault fault (u32_in place row.now)) }
    ensures near { IfOk result (λ field. field.1 ≡ place + 4) }
{
    let (bytes, behind, rest) = read_bytes(place, row, 4)?;
    Ok((
        u32::from_be_bytes([bytes[0], bytes[1], bytes[2], bytes[3]]),
        behind,
        rest,
    ))
}

/// A number of eight bytes.
pub fn read_u64(place: u32, row: &[u8]) -> Result<(u64, u32, &[u8]), RowFault>
    requires near { place ≤ 2 ^ 30 }
    ensures read { MatchResult result
        (λ field. u64_in place row.now ≡ Ok (record { value = field.0; place = field.1; rest = field.2.now }))
        (λ fault. IsRowFault fault (u64_in place row.now)) }
    ensures near { IfOk result (λ field. field.1 ≡ place + 8) }
{
    let (bytes, behind, rest) = read_bytes(place, row, 8)?;
    Ok((
        u64::from_be_bytes([
            bytes[0], bytes[1], bytes[2], bytes[3], bytes[4], bytes[5], bytes[6], bytes[7],
        ]),
        behind,
        rest,
    ))
}

/// A body of at most so many bytes.
pub fn read_body(
    alloc: Global,
    limit: usize,
    place: u32,
    row: &[u8],
) -> Result<(Bytes, u32, &[u8]), RowFault>
    requires near { place ≤ 2 ^ 29 }
    requires limit { limit ≤ 2 ^ 27 }
    ensures read { MatchResult result
        (λ field. body_in limit place row.now ≡ Ok (record { value = field.0; place = field.1; rest = field.2.now }))
        (λ fault. IsRowFault fault (body_in limit place row.now)) }
    ensures near { IfOk result (λ field. field.1 ≤ place + 4 + limit) }
{
    let (size, behind, rest) = read_u32(place, row)?;
    let size = size as usize;
    if size > limit {
        return Err(RowFault::Bad { place });
    }
    let (body, behind, rest) = read_bytes(behind, rest, size)?;
    let body = Bytes::of(Vec::from_slice(alloc, body)?).shared();
    Ok((body, behind, rest))
}

/// Whether nothing is left; else the first surplus byte is at fault.
pub fn read_end(place: u32, row: &[u8]) -> Result<(), RowFault>
    ensures { result ≡ whole place row.now tt }
{
    if row.is_empty() {
        return Ok(());
    }
    Err(RowFault::Bad { place })
}

// The fault of a field that the row cuts short.
fn end_of(place: u32, row: &[u8]) -> RowFault
    requires near { place ≤ 2 ^ 30 }
    requires short { length row.now ≤ 2 ^ 30 }
    ensures { result ≡ RowFault.Bad (place + length row.now) }
{
    RowFault::Bad {
        place: place + row.len() as u32,
    }
}

// So many bytes and the rest, or None where fewer are left.
fn part_at(row: &[u8], count: usize) -> Option<(&[u8], &[u8])>
    ensures cut { option_map (λ cut. record { front = cut.0.now; rest = cut.1.now }) result ≡ part_at count row.now }
    ensures short { IfNone result (length row.now < count) }
    ensures count { IfSome result (λ cut. length cut.0.now ≡ count) }
{
    if row.len() < count {
        return None;
    }
    Some(row.split_at(count))
}

// A length of one byte and as many bytes, or None where fewer are left.
fn part_1(row: &[u8]) -> Option<(&[u8], &[u8])>
    ensures cut { option_map (λ cut. record { front = cut.0.now; rest = cut.1.now }) result ≡ part_1 row.now }
    ensures short { IfNone result (length row.now ≤ 256) }
    ensures count { IfSome result (λ cut. length cut.0.now ≤ 255) }
{
    match row {
        [count, rest @ ..] => part_at(rest, *count as usize),
        [] => None,
    }
}

// A length of two bytes and as many bytes, or None where fewer are left.
fn part_2(row: &[u8]) -> Option<(&[u8], &[u8])>
    ensures cut { option_map (λ cut. record { front = cut.0.now; rest = cut.1.now }) result ≡ part_2 row.now }
    ensures short { IfNone result (length row.now ≤ 65537) }
    ensures count { IfSome result (λ cut. length cut.0.now ≤ 65535) }
{
    match row {
        [high, low, rest @ ..] => part_at(rest, u16::from_be_bytes([*high, *low]) as usize),
        _ => None,
    }
}
