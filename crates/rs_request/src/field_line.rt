//! Field lines, written (RFC 9112, section 5). No call takes memory where there is room.

ghost use Rattle.std.specs.Prelude.{◌≡◌, ◌+◌, ◌<◌, ◌≤◌, ◌∷◌, [], ◌++◌, length, codes, OnOk, OnErr, vec_capacity};
ghost use Rattle.rs_request.specs.FieldValues.{value_text, tag_text, line_text};

use itoa::Buffer;
use rs_path::NoMemory;

/// The value of a field, as it is to be written.
#[derive(Clone, Copy, Debug)]
pub enum FieldValue<'a> {
    /// A text, as it stands.
    Text(&'a [u8]),
    /// A number, in decimal digits.
    Number(u64),
    /// The entity tag of a version: the number in decimal digits, in quotes (RFC 9110, section 8.8.3).
    Tag(u64),
}

/// Appends a field line.
#[tactic(auto, using(std::proofs::Common::append_assoc), unfolding(crate::specs::FieldValues::line_text))]
pub fn put_field_line(out: &mut Vec<u8>, name: &[u8], value: FieldValue) -> Result<(), NoMemory>
    ensures put { OnOk result (out.new.items ≡ out.old.items ++ line_text name.now value.entry) }
    ensures capacity { vec_capacity out.old ≤ vec_capacity out.new }
    ensures full { OnErr result (vec_capacity out.old < length out.old.items + length (line_text name.now value.entry)) }
{
    put_text(out, name)?;
    put_text(out, b": ")?;
    put_value(out, value)?;
    put_text(out, b"\r\n")?;
    Ok(())
}

/// Appends the empty line that ends a head.
pub fn put_empty_line(out: &mut Vec<u8>) -> Result<(), NoMemory>
    ensures put { OnOk result (out.new.items ≡ out.old.items ++ 13 ∷ 10 ∷ []) }
    ensures capacity { vec_capacity out.old ≤ vec_capacity out.new }
    ensures full { OnErr result (vec_capacity out.old < length out.old.items + 2) }
{
    put_text(out, b"\r\n")
}

// Appends the value of a field.
fn put_value(out: &mut Vec<u8>, value: FieldValue) -> Result<(), NoMemory>
    ensures put { OnOk result (out.new.items ≡ out.old.items ++ value_text value.entry) }
    ensures capacity { vec_capacity out.old ≤ vec_capacity out.new }
    ensures full { OnErr result (vec_capacity out.old < length out.old.items + length (value_text value.entry)) }
{
    match value {
        FieldValue::Text(text) => put_text(out, text),
        FieldValue::Number(number) => put_text(out, Buffer::new().format(number).as_bytes()),
        FieldValue::Tag(version) => put_tag(out, version),
    }
}

// Appends the entity tag of a version.
#[tactic(auto, using(std::proofs::Common::append_assoc), unfolding(crate::specs::FieldValues::tag_text))]
fn put_tag(out: &mut Vec<u8>, version: u64) -> Result<(), NoMemory>
    ensures put { OnOk result (out.new.items ≡ out.old.items ++ tag_text version) }
    ensures capacity { vec_capacity out.old ≤ vec_capacity out.new }
    ensures full { OnErr result (vec_capacity out.old < length out.old.items + length (tag_text version)) }
{
    put_text(out, b"\"")?;
    put_text(out, Buffer::new().format(version).as_bytes())?;
    put_text(out, b"\"")?;
    Ok(())
}

/// Appends the text.
pub fn put_text(out: &mut Vec<u8>, text: &[u8]) -> Result<(), NoMemory>
    ensures put { OnOk result (out.new.items ≡ out.old.items ++ text.now) }
    ensures capacity { vec_capacity out.old ≤ vec_capacity out.new }
    ensures full { OnErr result (vec_capacity out.old < length out.old.items + length text.now) }
{
    out.extend_from_slice(text)?;
    Ok(())
}
