//! Records spelled as rows.

ghost use Rattle.std.specs.Prelude.{◌≡◌, ◌++◌, ◌<◌, ◌≤◌, ◌^◌, false, length, Ok, IfOk, OnOk, OnErr, IsTrue};
ghost use Rattle.rs_path.specs.Paths.{plain_text};
ghost use Rattle.rs_scope.specs.Scopes.{scopes_text};
ghost use Rattle.rs_record.specs.declared.records.Record.TheVariants.{Put as PutRecord};
ghost use Rattle.rs_record.specs.Records.{is_writable, body_limit};
ghost use Rattle.rs_row.specs.RowTexts.{behind_2};
ghost use Rattle.rs_record.specs.Rows.{spelling};
ghost use Rattle.rs_record.specs.RowHeads.{put_start, remove_start, document_head, row_head, row_body};
ghost use Rattle.rs_record.specs.RowReadings.{record_reading};

use crate::parts::look_at_parts;
use crate::records::Record;
use rs_path::{Bytes, Kind, NoMemory, Path};
use rs_row::{push_behind_1, push_behind_2};
use rs_scope::{Scopes, Token};
use sha2::{Digest, Sha256};
use std::alloc::Global;

/// Appends the row of the record: format 1 where it has no writer, and for grants and revocations; format 2 with a
/// writer, which stands first, and before a document the SHA-256 of its body (FIPS 180-4).
pub fn encode(it: &Record, out: &mut Vec<u8>) -> Result<(), NoMemory>
    requires writable { IsTrue (is_writable it.now) }
    ensures ok { OnOk result (out.new.items ≡ out.old.items ++ spelling it.now) }
    ensures err { OnErr result (out.new.items ≡ out.old.items) }
    ensures back { record_reading (spelling it.now) ≡ Ok it.now }
{
    look_at_parts(it);
    let head = row_head(*out.allocator(), it)?;
    append_both(out, head.as_slice(), row_body(it))
}

/// Appends the row of a document that was put, as `encode` of that record does, without a copy of the body in between.
pub fn encode_put(
    path: &Path,
    kind: &Kind,
    body: &Bytes,
    writer: &Option<Token>,
    out: &mut Vec<u8>,
) -> Result<(), NoMemory>
    requires document { path.now.folder ≡ false }
    requires short { length body.now ≤ body_limit writer.now }
    ensures ok { OnOk result (out.new.items ≡ out.old.items ++ spelling (PutRecord path.now kind.now body.now writer.now)) }
    ensures err { OnErr result (out.new.items ≡ out.old.items) }
{
    let mut head = Vec::new(*out.allocator());
    push_put_start(&mut head, writer, body.as_slice())?;
    push_document_head(&mut head, path, kind, body.as_slice())?;
    append_both(out, head.as_slice(), body.as_slice())
}

// Appends two lists, or neither.
fn append_both(out: &mut Vec<u8>, first: &[u8], second: &[u8]) -> Result<(), NoMemory>
    ensures ok { OnOk result (out.new.items ≡ out.old.items ++ (first.now ++ second.now)) }
    ensures err { OnErr result (out.new.items ≡ out.old.items) }
{
    let length = out.len();
    out.extend_from_slice(first)?;
    if out.extend_from_slice(second).is_err() {
        out.truncate(length);
        return Err(NoMemory);
    }
    Ok(())
}

// What ends the row: the body of a document, which isn't copied twice.
fn row_body(it: &Record) -> &[u8]
    ensures { result.now ≡ row_body it.now }
{
    match it {
        Record::Put { body, .. } => body.as_slice(),
        _ => b"",
    }
}

// The row without its body.
fn row_head(alloc: Global, it: &Record) -> Result<Vec<u8>, NoMemory>
    requires { IsTrue (is_writable it.now) }
    ensures { IfOk result (λ head. head.items ≡ row_head it.now) }
{
    let mut head = Vec::new(alloc);
    match it {
        Record::Put {
            path,
            kind,
            body,
            writer,
        } => {
            push_put_start(&mut head, writer, body.as_slice())?;
            push_document_head(&mut head, path, kind, body.as_slice())?;
        }
        Record::Remove { path, writer } => {
            push_remove_start(&mut head, writer)?;
            push_path(&mut head, path)?;
        }
        Record::Grant { token, scopes } => {
            head.extend_from_slice(&[1, 3])?;
            head.extend_from_slice(token.as_bytes())?;
            push_scopes(&mut head, scopes)?;
        }
        Record::Revoke { token } => {
            head.extend_from_slice(&[1, 4])?;
            head.extend_from_slice(token.as_bytes())?;
        }
    }
    Ok(head)
}

fn push_put_start(out: &mut Vec<u8>, writer: &Option<Token>, body: &[u8]) -> Result<(), NoMemory>
    ensures { OnOk result (out.new.items ≡ out.old.items ++ put_start writer.now body.now) }
{
    match writer {
        None => out.extend_from_slice(&[1, 1])?,
        Some(writer) => {
            out.extend_from_slice(&[2, 1])?;
            out.extend_from_slice(writer.as_bytes())?;
            out.extend_from_slice(&Sha256::digest(body))?;
        }
    }
    Ok(())
}

fn push_remove_start(out: &mut Vec<u8>, writer: &Option<Token>) -> Result<(), NoMemory>
    ensures { OnOk result (out.new.items ≡ out.old.items ++ remove_start writer.now) }
{
    match writer {
        None => out.extend_from_slice(&[1, 2])?,
        Some(writer) => {
            out.extend_from_slice(&[2, 2])?;
            out.extend_from_slice(writer.as_bytes())?;
        }
    }
    Ok(())
}

// Path, content type and the length of the body.
fn push_document_head(
    out: &mut Vec<u8>,
    path: &Path,
    kind: &Kind,
    body: &[u8],
) -> Result<(), NoMemory>
    requires { length body.now < 2 ^ 32 }
    ensures { OnOk result (out.new.items ≡ out.old.items ++ document_head path.now kind.now body.now) }
{
    push_path(out, path)?;
    push_behind_1(out, kind.as_slice())?;
    out.extend_from_slice(&(body.len() as u32).to_be_bytes())?;
    Ok(())
}

fn push_path(out: &mut Vec<u8>, path: &Path) -> Result<(), NoMemory>
    ensures { OnOk result (out.new.items ≡ out.old.items ++ behind_2 (plain_text path.now)) }
{
    let mut text = Vec::new(*out.allocator());
    path.write_plain(&mut text)?;
    push_behind_2(out, text.as_slice())
}

fn push_scopes(out: &mut Vec<u8>, scopes: &Scopes) -> Result<(), NoMemory>
    ensures { OnOk result (out.new.items ≡ out.old.items ++ behind_2 (scopes_text scopes.now)) }
{
    let mut text = Vec::new(*out.allocator());
    scopes.write(&mut text)?;
    push_behind_2(out, text.as_slice())
}
