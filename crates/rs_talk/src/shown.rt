//! What the fields of a reply show: an entity tag, a content type (RFC 9110, sections 8.3 and 8.8.3).

ghost use Rattle.std.specs.Prelude.{◌≡◌, ◌∷◌, ◌++◌, [], ℕ, List, IfOk};
ghost use Rattle.rs_talk.specs.AnswerReadings.{field_values, is_quoted, strong_tag, one_tag, tag_shown, one_kind, kind_shown};
ghost use Rattle.rs_talk.specs.FieldCounts.{Counted};

use rs_path::{Kind, NoMemory, Tag};
use rs_wire::Field;
use std::alloc::Global;

/// How often a field is there, with its value where that is once.
#[derive(Clone, Copy, Debug)]
pub(crate) enum Times<'a> {
    Never,
    Once(&'a [u8]),
    Often,
}

/// The entity tag of a reply with these fields, or None where there isn't one ETag with a strong tag.
pub(crate) fn read_tag(alloc: Global, fields: &[Field]) -> Result<Option<Tag>, NoMemory>
    ensures tag { IfOk result (λ tag. tag ≡ tag_shown fields.now) }
{
    one_tag(alloc, count(fields, b"etag"))
}

/// The content type of a reply with these fields, or None where there are several or one that is none.
pub(crate) fn read_kind(alloc: Global, fields: &[Field]) -> Result<Option<Kind>, NoMemory>
    ensures kind { IfOk result (λ kind. kind ≡ kind_shown fields.now) }
{
    one_kind(alloc, count(fields, b"content-type"))
}

// How often there is a field of that name.
fn count<'a>(fields: &'a [Field], name: &[u8]) -> Times<'a>
    ensures counted { Counted result (field_values name.now fields.now) }
{
    let mut found = Times::Never;
    for field in fields {
        if field.is_named(name) {
            found = one_more(found, field.value.as_slice());
        }
    }
    found
}

// The same with one more field.
fn one_more<'a>(found: Times<'a>, value: &'a [u8]) -> Times<'a>
    ensures more { (values : List (List ℕ)) → Counted found.entry values → Counted result (values ++ value.now ∷ []) }
{
    match found {
        Times::Never => Times::Once(value),
        Times::Once(_) => Times::Often,
        Times::Often => Times::Often,
    }
}

// The tag of so many ETag fields.
fn one_tag(alloc: Global, found: Times) -> Result<Option<Tag>, NoMemory>
    ensures tag { IfOk result (λ tag. (values : List (List ℕ)) → Counted found.entry values → tag ≡ one_tag values) }
{
    match found {
        Times::Never => Ok(None),
        Times::Once(value) => strong_tag(alloc, value),
        Times::Often => Ok(None),
    }
}

// The strong tag that a text is, if it is one.
fn strong_tag(alloc: Global, text: &[u8]) -> Result<Option<Tag>, NoMemory>
    ensures tag { IfOk result (λ tag. tag ≡ strong_tag text.now) }
{
    if !is_quoted(text) {
        return Ok(None);
    }
    Tag::read(alloc, &text[1..text.len() - 1])
}

// Whether a text begins and ends with a quote.
fn is_quoted(text: &[u8]) -> bool
    ensures quoted { result ≡ is_quoted text.now }
{
    text.len() >= 2 && text[0] == b'"' && text[text.len() - 1] == b'"'
}

// The content type of so many Content-Type fields.
fn one_kind(alloc: Global, found: Times) -> Result<Option<Kind>, NoMemory>
    ensures kind { IfOk result (λ kind. (values : List (List ℕ)) → Counted found.entry values → kind ≡ one_kind values) }
{
    match found {
        Times::Never => Kind::read(alloc, b"application/octet-stream"),
        Times::Once(value) => Kind::read(alloc, value),
        Times::Often => Ok(None),
    }
}
