//! Fields whose texts stand for something. As `field`'s, each reading is given the place at which what is left of the row
//! begins, and answers what the field stands for, the place behind it, and what is left from there.

ghost use Rattle.std.specs.Prelude.{◌≡◌, ◌+◌, ◌≤◌, ◌^◌, IfOk, MatchResult, Ok};
ghost use Rattle.rs_row.specs.RowFields.{path_meant, document_meant, kind_meant, optional_tag_meant, scopes_meant, meant_1_in, meant_2_in, IsRowFault};

use crate::field::{read_text_1, read_text_2};
use crate::meaning::{read_document, read_kind, read_optional_tag, read_path, read_scopes};
use crate::row_fault::RowFault;
use rs_path::{Kind, Path, Tag};
use rs_scope::Scopes;
use std::alloc::Global;

/// A path, behind its length of two bytes.
pub fn read_path_field(
    alloc: Global,
    place: u32,
    row: &[u8],
) -> Result<(Path, u32, &[u8]), RowFault>
    requires near { place ≤ 2 ^ 30 }
    ensures read { MatchResult result
        (λ field. meant_2_in path_meant place row.now ≡ Ok (record { value = field.0; place = field.1; rest = field.2.now }))
        (λ fault. IsRowFault fault (meant_2_in path_meant place row.now)) }
    ensures near { IfOk result (λ field. field.1 ≤ place + 65537) }
{
    let (text, behind, rest) = read_text_2(place, row)?;
    let path = read_path(alloc, place + 2, text)?;
    Ok((path, behind, rest))
}

/// The path of a document, behind its length of two bytes.
pub fn read_document_field(
    alloc: Global,
    place: u32,
    row: &[u8],
) -> Result<(Path, u32, &[u8]), RowFault>
    requires near { place ≤ 2 ^ 30 }
    ensures read { MatchResult result
        (λ field. meant_2_in document_meant place row.now ≡ Ok (record { value = field.0; place = field.1; rest = field.2.now }))
        (λ fault. IsRowFault fault (meant_2_in document_meant place row.now)) }
    ensures near { IfOk result (λ field. field.1 ≤ place + 65537) }
{
    let (text, behind, rest) = read_text_2(place, row)?;
    let path = read_document(alloc, place + 2, text)?;
    Ok((path, behind, rest))
}

/// A content type, behind its length of one byte.
pub fn read_kind_field(
    alloc: Global,
    place: u32,
    row: &[u8],
) -> Result<(Kind, u32, &[u8]), RowFault>
    requires near { place ≤ 2 ^ 30 }
    ensures read { MatchResult result
        (λ field. meant_1_in kind_meant place row.now ≡ Ok (record { value = field.0; place = field.1; rest = field.2.now }))
        (λ fault. IsRowFault fault (meant_1_in kind_meant place row.now)) }
    ensures near { IfOk result (λ field. field.1 ≤ place + 256) }
{
    let (text, behind, rest) = read_text_1(place, row)?;
    let kind = read_kind(alloc, place + 1, text)?;
    Ok((kind, behind, rest))
}

/// An entity tag behind its length of one byte, or none, where that is 0.
pub fn read_optional_tag_field(
    alloc: Global,
    place: u32,
    row: &[u8],
) -> Result<(Option<Tag>, u32, &[u8]), RowFault>
    requires near { place ≤ 2 ^ 30 }
    ensures read { MatchResult result
        (λ field. meant_1_in optional_tag_meant place row.now ≡ Ok (record { value = field.0; place = field.1; rest = field.2.now }))
        (λ fault. IsRowFault fault (meant_1_in optional_tag_meant place row.now)) }
    ensures near { IfOk result (λ field. field.1 ≤ place + 256) }
{
    let (text, behind, rest) = read_text_1(place, row)?;
    let tag = read_optional_tag(alloc, place + 1, text)?;
    Ok((tag, behind, rest))
}

/// Scopes as they are written, behind their length of two bytes.
pub fn read_scopes_field(
    alloc: Global,
    place: u32,
    row: &[u8],
) -> Result<(Scopes, u32, &[u8]), RowFault>
    requires near { place ≤ 2 ^ 30 }
    ensures read { MatchResult result
        (λ field. meant_2_in scopes_meant place row.now ≡ Ok (record { value = field.0; place = field.1; rest = field.2.now }))
        (λ fault. IsRowFault fault (meant_2_in scopes_meant place row.now)) }
    ensures near { IfOk result (λ field. field.1 ≤ place + 65537) }
{
    let (text, behind, rest) = read_text_2(place, row)?;
    let scopes = read_scopes(alloc, place + 2, text)?;
    Ok((scopes, behind, rest))
}
