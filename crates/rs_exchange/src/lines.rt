//! The lines of a reply's head, in their order. No call takes memory where there is room.

ghost use Rattle.std.specs.Prelude.{◌≡◌, ◌+◌, ◌<◌, ◌≤◌, true, [], ◌∷◌, ◌++◌, length, OnOk, OnErr, vec_capacity};
ghost use Rattle.rs_exchange.specs.Lines.{lines_of, first_lines, last_lines};
ghost use Rattle.rs_exchange.specs.Outlines.{own_fields};
ghost use Rattle.rs_exchange.specs.Replies.{named_field, tag_field, fresh_field, length_field, shown_fields, preflight_fields, origin_fields, length_fields, close_fields};

use crate::outline::{Outline, OwnFields};
use rs_path::NoMemory;
use rs_wire::{FieldValue, put_empty_line, put_field_line, put_status_line};

/// Appends the lines up to those that are the answer's own.
#[tactic(auto, using(std::proofs::Common::append_assoc), unfolding(crate::specs::Lines::first_lines))]
pub(crate) fn put_first_lines(
    out: &mut Vec<u8>,
    shared: bool,
    outline: Outline,
) -> Result<(), NoMemory>
    ensures put { OnOk result (out.new.items ≡ out.old.items ++ first_lines shared outline.entry.status (own_fields outline.entry.fields)) }
    ensures capacity { vec_capacity out.old ≤ vec_capacity out.new }
    ensures full { OnErr result (vec_capacity out.old
        < length out.old.items + length (first_lines shared outline.entry.status (own_fields outline.entry.fields))) }
{
    put_status_line(out, outline.status)?;
    put_origin(out, shared)?;
    put_own(out, outline.fields)?;
    Ok(())
}

/// Appends the lines behind those, and the empty line.
#[tactic(auto, using(std::proofs::Common::append_assoc), unfolding(crate::specs::Lines::last_lines))]
pub(crate) fn put_last_lines(
    out: &mut Vec<u8>,
    closing: bool,
    status: u16,
    size: usize,
) -> Result<(), NoMemory>
    ensures put { OnOk result (out.new.items ≡ out.old.items ++ last_lines closing status size) }
    ensures capacity { vec_capacity out.old ≤ vec_capacity out.new }
    ensures full { OnErr result (vec_capacity out.old < length out.old.items + length (last_lines closing status size)) }
{
    put_length(out, status, size)?;
    put_close(out, closing)?;
    put_empty_line(out)?;
    Ok(())
}

// That pages of any origin may read the reply, and which of its fields.
fn put_origin(out: &mut Vec<u8>, shared: bool) -> Result<(), NoMemory>
    ensures put { OnOk result (out.new.items ≡ out.old.items ++ lines_of (origin_fields shared)) }
    ensures capacity { vec_capacity out.old ≤ vec_capacity out.new }
    ensures full { OnErr result (vec_capacity out.old < length out.old.items + length (lines_of (origin_fields shared))) }
{
    if shared {
        put_origin_lines(out)?;
    }
    Ok(())
}

#[tactic(auto, using(std::proofs::Common::append_assoc))]
fn put_origin_lines(out: &mut Vec<u8>) -> Result<(), NoMemory>
    ensures put { OnOk result (out.new.items ≡ out.old.items ++ lines_of (origin_fields true)) }
    ensures capacity { vec_capacity out.old ≤ vec_capacity out.new }
    ensures full { OnErr result (vec_capacity out.old < length out.old.items + length (lines_of (origin_fields true))) }
{
    put_text(out, b"Access-Control-Allow-Origin", b"*")?;
    put_text(
        out,
        b"Access-Control-Expose-Headers",
        b"ETag, Content-Type, Content-Length",
    )?;
    Ok(())
}

// The fields that are the answer's own.
fn put_own(out: &mut Vec<u8>, fields: OwnFields) -> Result<(), NoMemory>
    ensures put { OnOk result (out.new.items ≡ out.old.items ++ lines_of (own_fields fields.entry)) }
    ensures capacity { vec_capacity out.old ≤ vec_capacity out.new }
    ensures full { OnErr result (vec_capacity out.old < length out.old.items + length (lines_of (own_fields fields.entry))) }
{
    match fields {
        OwnFields::Nothing => Ok(()),
        OwnFields::Tag(version) => put_tag(out, version),
        OwnFields::Same(version) => put_same(out, version),
        OwnFields::Shown { version, kind } => put_shown(out, version, kind),
        OwnFields::Challenge(text) => put_text(out, b"WWW-Authenticate", text),
        OwnFields::Allow(methods) => put_text(out, b"Allow", methods.list()),
        OwnFields::Preflight => put_preflight(out),
        OwnFields::Typed(kind) => put_text(out, b"Content-Type", kind),
        OwnFields::Location(address) => put_text(out, b"Location", address),
    }
}

// The entity tag of what is there, and that a cache asks again.
#[tactic(auto, using(std::proofs::Common::append_assoc))]
fn put_same(out: &mut Vec<u8>, version: u64) -> Result<(), NoMemory>
    ensures put { OnOk result (out.new.items ≡ out.old.items ++ lines_of (tag_field version ∷ fresh_field ∷ [])) }
    ensures capacity { vec_capacity out.old ≤ vec_capacity out.new }
    ensures full { OnErr result (vec_capacity out.old < length out.old.items + length (lines_of (tag_field version ∷ fresh_field ∷ []))) }
{
    put_tag(out, version)?;
    put_fresh(out)?;
    Ok(())
}

// The same of what is shown, and its content type.
#[tactic(auto, using(std::proofs::Common::append_assoc))]
fn put_shown(out: &mut Vec<u8>, version: u64, kind: &[u8]) -> Result<(), NoMemory>
    ensures put { OnOk result (out.new.items ≡ out.old.items ++ lines_of (shown_fields version kind.now)) }
    ensures capacity { vec_capacity out.old ≤ vec_capacity out.new }
    ensures full { OnErr result (vec_capacity out.old < length out.old.items + length (lines_of (shown_fields version kind.now))) }
{
    put_same(out, version)?;
    put_text(out, b"Content-Type", kind)?;
    Ok(())
}

// What another origin's page may send (Fetch, CORS-preflight).
#[tactic(auto, using(std::proofs::Common::append_assoc))]
fn put_preflight(out: &mut Vec<u8>) -> Result<(), NoMemory>
    ensures put { OnOk result (out.new.items ≡ out.old.items ++ lines_of preflight_fields) }
    ensures capacity { vec_capacity out.old ≤ vec_capacity out.new }
    ensures full { OnErr result (vec_capacity out.old < length out.old.items + length (lines_of preflight_fields)) }
{
    put_text(
        out,
        b"Access-Control-Allow-Methods",
        b"GET, HEAD, PUT, DELETE, OPTIONS",
    )?;
    put_text(
        out,
        b"Access-Control-Allow-Headers",
        b"Authorization, Content-Type, Content-Length, If-Match, If-None-Match, Origin",
    )?;
    put_text(out, b"Access-Control-Max-Age", b"7200")?;
    Ok(())
}

// The length of the body, but of a 204 and a 304 (RFC 9110, section 8.6).
fn put_length(out: &mut Vec<u8>, status: u16, size: usize) -> Result<(), NoMemory>
    ensures put { OnOk result (out.new.items ≡ out.old.items ++ lines_of (length_fields status size)) }
    ensures capacity { vec_capacity out.old ≤ vec_capacity out.new }
    ensures full { OnErr result (vec_capacity out.old < length out.old.items + length (lines_of (length_fields status size))) }
{
    if status == 204 || status == 304 {
        return Ok(());
    }
    put_size(out, size)
}

// That the connection ends behind the reply (RFC 9112, section 9.6).
fn put_close(out: &mut Vec<u8>, closing: bool) -> Result<(), NoMemory>
    ensures put { OnOk result (out.new.items ≡ out.old.items ++ lines_of (close_fields closing)) }
    ensures capacity { vec_capacity out.old ≤ vec_capacity out.new }
    ensures full { OnErr result (vec_capacity out.old < length out.old.items + length (lines_of (close_fields closing))) }
{
    if closing {
        put_text(out, b"Connection", b"close")?;
    }
    Ok(())
}

// ---- one line

#[tactic(auto, using(crate::proofs::PartLemmas::one_line), unfolding(rs_request::specs::FieldValues::line_text, rs_request::specs::FieldValues::tag_text))]
fn put_text(out: &mut Vec<u8>, name: &[u8], text: &[u8]) -> Result<(), NoMemory>
    ensures put { OnOk result (out.new.items ≡ out.old.items ++ lines_of (named_field name.now text.now ∷ [])) }
    ensures capacity { vec_capacity out.old ≤ vec_capacity out.new }
    ensures full { OnErr result (vec_capacity out.old < length out.old.items + length (lines_of (named_field name.now text.now ∷ []))) }
{
    put_field_line(out, name, FieldValue::Text(text))
}

#[tactic(auto, using(crate::proofs::PartLemmas::one_line), unfolding(rs_request::specs::FieldValues::line_text, rs_request::specs::FieldValues::tag_text))]
fn put_tag(out: &mut Vec<u8>, version: u64) -> Result<(), NoMemory>
    ensures put { OnOk result (out.new.items ≡ out.old.items ++ lines_of (tag_field version ∷ [])) }
    ensures capacity { vec_capacity out.old ≤ vec_capacity out.new }
    ensures full { OnErr result (vec_capacity out.old < length out.old.items + length (lines_of (tag_field version ∷ []))) }
{
    put_field_line(out, b"ETag", FieldValue::Tag(version))
}

fn put_fresh(out: &mut Vec<u8>) -> Result<(), NoMemory>
    ensures put { OnOk result (out.new.items ≡ out.old.items ++ lines_of (fresh_field ∷ [])) }
    ensures capacity { vec_capacity out.old ≤ vec_capacity out.new }
    ensures full { OnErr result (vec_capacity out.old < length out.old.items + length (lines_of (fresh_field ∷ []))) }
{
    put_text(out, b"Cache-Control", b"no-cache")
}

#[tactic(auto, using(crate::proofs::PartLemmas::one_line), unfolding(rs_request::specs::FieldValues::line_text, rs_request::specs::FieldValues::tag_text))]
fn put_size(out: &mut Vec<u8>, size: usize) -> Result<(), NoMemory>
    ensures put { OnOk result (out.new.items ≡ out.old.items ++ lines_of (length_field size ∷ [])) }
    ensures capacity { vec_capacity out.old ≤ vec_capacity out.new }
    ensures full { OnErr result (vec_capacity out.old < length out.old.items + length (lines_of (length_field size ∷ []))) }
{
    put_field_line(out, b"Content-Length", FieldValue::Number(size as u64))
}
