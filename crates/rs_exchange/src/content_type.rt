//! The content type that a request brings (RFC 9110, section 8.3), and whether it brings the whole (section 14.5).

ghost use Rattle.std.specs.Prelude.{◌≡◌, ℕ, List, Some, codes, IfOk};
ghost use Rattle.rs_scope.specs.declared.method.Method.TheVariants.{Put};
ghost use Rattle.rs_exchange.specs.ContentTypes.{octet_stream, kind_of_text, put_kind, kind_of, is_part};
ghost use Rattle.rs_exchange.specs.Fields.{values_of, Occurring};

use crate::fields::{Occurs, look_up};
use rs_path::{Kind, NoMemory};
use rs_scope::Method;
use rs_wire::Field;
use std::alloc::Global;

/// The content type that a request with these fields brings, or None where it may not be so. Only a PUT brings one.
pub(crate) fn read_kind(
    alloc: Global,
    method: Method,
    fields: &[Field],
) -> Result<Option<Kind>, NoMemory>
    ensures kind { IfOk result (λ kind. kind ≡ kind_of method (values_of (codes "content-type") fields.now)) }
{
    kind_of(alloc, method, look_up(fields, b"content-type"))
}

// The content type that a request with these Content-Type fields brings, or None where it may not be so.
fn kind_of(alloc: Global, method: Method, kinds: Occurs) -> Result<Option<Kind>, NoMemory>
    ensures kind { IfOk result (λ kind. (values : List (List ℕ)) → Occurring kinds.entry values → kind ≡ kind_of method values) }
{
    match method {
        Method::Put => put_kind(alloc, kinds),
        Method::Get => octet_stream(alloc),
        Method::Head => octet_stream(alloc),
        Method::Delete => octet_stream(alloc),
    }
}

fn put_kind(alloc: Global, kinds: Occurs) -> Result<Option<Kind>, NoMemory>
    ensures kind { IfOk result (λ kind. (values : List (List ℕ)) → Occurring kinds.entry values → kind ≡ put_kind values) }
{
    match kinds {
        Occurs::Never => octet_stream(alloc),
        Occurs::Once(text) => kind_of_text(alloc, text),
        Occurs::Often => Ok(None),
    }
}

fn kind_of_text(alloc: Global, text: &[u8]) -> Result<Option<Kind>, NoMemory>
    ensures kind { IfOk result (λ kind. kind ≡ kind_of_text text.now) }
{
    if text.is_empty() {
        octet_stream(alloc)
    } else {
        Kind::read(alloc, text)
    }
}

fn octet_stream(alloc: Global) -> Result<Option<Kind>, NoMemory>
    ensures kind { IfOk result (λ kind. kind ≡ Some octet_stream) }
{
    Kind::read(alloc, b"application/octet-stream")
}

/// Whether a request with these fields brings a part of a document.
pub(crate) fn brings_part(method: Method, fields: &[Field]) -> bool
    ensures part { result ≡ is_part method (values_of (codes "content-range") fields.now) }
{
    match method {
        Method::Put => is_there(look_up(fields, b"content-range")),
        Method::Get => false,
        Method::Head => false,
        Method::Delete => false,
    }
}

fn is_there(ranges: Occurs) -> bool
    ensures part { (values : List (List ℕ)) → Occurring ranges.entry values → result ≡ is_part Put values }
{
    match ranges {
        Occurs::Never => false,
        Occurs::Once(_) => true,
        Occurs::Often => true,
    }
}
