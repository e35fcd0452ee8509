//! Requests, written (RFC 9112, sections 3 to 6).

ghost use Rattle.std.specs.Prelude.{◌≡◌, ◌++◌, IfOk, OnOk, OnErr};
ghost use Rattle.rs_request.specs.Writing.{field_text, fields_text, request_head_text, request_text, IsWritable};

use crate::field::Field;
use crate::field_line::{FieldValue, put_field_line};
use crate::message::RequestMessage;
use rs_path::NoMemory;
use std::alloc::Global;

/// Writes a request of version 1.1 at the end of `out`. Where there is no memory, `out` is as before.
///
/// The request is one that has a spelling with no Transfer-Encoding field.
pub fn write_request(alloc: Global, it: &RequestMessage, out: &mut Vec<u8>) -> Result<(), NoMemory>
    requires { IsWritable it.now }
    ensures ok { OnOk result (out.new.items ≡ out.old.items ++ request_text it.now) }
    ensures err { OnErr result (out.new.items ≡ out.old.items) }
{
    let head = request_head(alloc, it)?;
    put_both(head.as_slice(), it.body.as_slice(), out)
}

/// Puts the head and the body of a message at the end of `out`, both or neither: where there is no memory, `out` is as before.
pub fn put_both(head: &[u8], body: &[u8], out: &mut Vec<u8>) -> Result<(), NoMemory>
    ensures ok { OnOk result (out.new.items ≡ out.old.items ++ (head.now ++ body.now)) }
    ensures err { OnErr result (out.new.items ≡ out.old.items) }
{
    let before = out.len();
    out.extend_from_slice(head)?;
    match out.extend_from_slice(body) {
        Ok(()) => Ok(()),
        Err(_) => {
            out.truncate(before);
            Err(NoMemory)
        }
    }
}

/// The head of a request.
fn request_head(alloc: Global, it: &RequestMessage) -> Result<Vec<u8>, NoMemory>
    ensures { IfOk result (λ head. head.items ≡ request_head_text it.now) }
{
    let mut head = Vec::new(alloc);
    put(it.method.as_slice(), &mut head)?;
    put(b" ", &mut head)?;
    put(it.target.as_slice(), &mut head)?;
    put(b" HTTP/1.1\r\n", &mut head)?;
    put_fields(it.fields.as_slice(), &mut head)?;
    Ok(head)
}

/// Puts bytes at the end.
fn put(bytes: &[u8], out: &mut Vec<u8>) -> Result<(), NoMemory>
    ensures { OnOk result (out.new.items ≡ out.old.items ++ bytes.now) }
{
    out.extend_from_slice(bytes)?;
    Ok(())
}

/// Puts fields and the empty line after them at the end of `out` (RFC 9112, section 5). Where there is no memory, some of it
/// may be there.
pub fn put_fields(fields: &[Field], out: &mut Vec<u8>) -> Result<(), NoMemory>
    ensures { OnOk result (out.new.items ≡ out.old.items ++ fields_text fields.now) }
{
    for field in fields {
        put_field(field, out)?;
    }
    put(b"\r\n", out)?;
    Ok(())
}

/// Puts a field line at the end.
#[tactic(auto, unfolding(crate::specs::FieldValues::line_text))]
fn put_field(field: &Field, out: &mut Vec<u8>) -> Result<(), NoMemory>
    ensures { OnOk result (out.new.items ≡ out.old.items ++ field_text field.now) }
{
    put_field_line(
        out,
        field.name.as_slice(),
        FieldValue::Text(field.value.as_slice()),
    )
}
