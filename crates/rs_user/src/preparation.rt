//! What of a request needs no state, made before its turn.

ghost use Rattle.std.specs.Prelude.{◌≡◌, ◌≤◌, true, false, None, Some, length, option_map, option_copied, IfOk, if◌then◌else◌};
ghost use Rattle.rs_record.specs.declared.records.Record.TheVariants.{Put as PutRecord, Remove as RemoveRecord};
ghost use Rattle.rs_record.specs.Records.{body_limit, has_parts, is_writable};
ghost use Rattle.rs_rules.specs.declared.request.Request.TheVariants.{Store};
ghost use Rattle.rs_rules.specs.Requests.{is_within_limit};
ghost use Rattle.rs_rules.specs.Answers.{token_of};
ghost use Rattle.rs_user.specs.Preparations.{IsRowOf, IsMadeFor};

use rs_path::{NoMemory, Path};
use rs_record::{Record, encode, encode_put, row_laws};
use rs_rules::{Call, Pass, Request};
use rs_scope::{Method, Token};
use std::alloc::Global;
use std::marker::Model;

/// A request with what of it needs no state: the row of the record that it brings, in which a document's digest stands.
/// A contract sees it as the request.
///
/// Who waits for a turn prepares the request before: the turn then appends the row as it is. The body is neither digested
/// nor spelled in it, and where bodies are shared (`Bytes::shared`) it isn't copied.
#[derive(Drop)]
pub struct PreparedRequest<'a> {
    request: &'a Request,
    row: Option<Vec<u8>>,
}

impl<'a> Model for PreparedRequest<'a> {
    ghost use Rattle.std.specs.Prelude.{◌≡◌, true, option_map};
    ghost use Rattle.rs_rules.specs.declared.request.Request.{Request as RequestValue};
    ghost use Rattle.rs_rules.specs.Requests.{is_within_limit};
    ghost use Rattle.rs_user.specs.Preparations.{IsMadeFor};

    ghost Value = { RequestValue };

    ghost view = { λ p. p.request.now };

    ghost invariant = { λ p. (is_within_limit p.request.now ≡ true) × IsMadeFor (option_map (λ row. row.items) p.row) p.request.now };
}

impl<'a> PreparedRequest<'a> {
    /// Prepares a request. No state is looked at, so a request that its turn refuses may have been given a row too.
    pub fn new(alloc: Global, request: &'a Request) -> Result<PreparedRequest<'a>, NoMemory>
        requires body { is_within_limit request.now ≡ true }
        ensures request { IfOk result (λ prepared. prepared ≡ request.now) }
    {
        let row = row_made(alloc, request)?;
        Ok(PreparedRequest { request, row })
    }

    /// The request.
    pub fn request(&self) -> &Request
        ensures request { result.now ≡ self.now }
        ensures body { is_within_limit self.now ≡ true }
    {
        self.request
    }

    /// The row of the record that it brings, where there is one: of a grant, of a revocation, and of a PUT or a DELETE of a
    /// document that shows a token. Other requests add no record to any history.
    pub fn row(&self) -> Option<&[u8]>
        ensures made { IsMadeFor (option_copied result) self.now }
    {
        self.row.as_deref()
    }
}

// The row that a request brings.
fn row_made(alloc: Global, request: &Request) -> Result<Option<Vec<u8>>, NoMemory>
    requires body { is_within_limit request.now ≡ true }
    ensures made { IfOk result (λ row. IsMadeFor (option_map (λ made. made.items) row) request.now) }
{
    match request {
        Request::Store(call) => row_of_call(alloc, call),
        Request::Grant { token, scopes } => {
            let what = Record::Grant {
                token: *token,
                scopes: scopes.copy()?,
            };
            Ok(Some(row_of(alloc, &what)?))
        }
        Request::Revoke { token } => Ok(Some(row_of(alloc, &Record::Revoke { token: *token })?)),
    }
}

// The row that a storage request brings.
fn row_of_call(alloc: Global, call: &Call) -> Result<Option<Vec<u8>>, NoMemory>
    requires body { is_within_limit (Store call.now) ≡ true }
    ensures made { IfOk result (λ row. IsMadeFor (option_map (λ made. made.items) row) (Store call.now)) }
{
    let Some(writer) = writer_of(call) else {
        return Ok(None);
    };
    match call.method {
        Method::Get | Method::Head => Ok(None),
        Method::Put => Ok(Some(row_of_put(alloc, call, writer)?)),
        Method::Delete => Ok(Some(row_of_remove(alloc, &call.path, writer)?)),
    }
}

// The token that writes, if the path is a document's.
fn writer_of(call: &Call) -> Option<Token>
    ensures writer { result ≡ (if call.now.path.folder then None else token_of call.now.pass) }
{
    match &call.pass {
        Pass::Known(token) if !call.path.is_folder() => Some(*token),
        _ => None,
    }
}

// The row of a document that is put.
fn row_of_put(alloc: Global, call: &Call, writer: Token) -> Result<Vec<u8>, NoMemory>
    requires document { call.now.path.folder ≡ false }
    requires short { length call.now.body ≤ body_limit (Some writer) }
    ensures row { IfOk result (λ row. IsRowOf row.items (PutRecord call.now.path call.now.kind call.now.body (Some writer))) }
{
    row_laws();
    look_at(call, writer);
    let mut row = Vec::new(alloc);
    encode_put(&call.path, &call.kind, &call.body, &Some(writer), &mut row)?;
    Ok(row)
}

// Reads nothing: it says what the types of a document's parts promise.
fn look_at(call: &Call, writer: Token)
    ensures parts { has_parts (PutRecord call.now.path call.now.kind call.now.body (Some writer)) ≡ true }
{
    call.path.names();
    call.kind.as_slice();
    writer.as_bytes();
}

// The row of a document that is removed.
fn row_of_remove(alloc: Global, path: &Path, writer: Token) -> Result<Vec<u8>, NoMemory>
    requires document { path.now.folder ≡ false }
    ensures row { IfOk result (λ row. IsRowOf row.items (RemoveRecord path.now (Some writer))) }
{
    let what = Record::Remove {
        path: path.copy()?,
        writer: Some(writer),
    };
    row_of(alloc, &what)
}

// The row of a record.
fn row_of(alloc: Global, what: &Record) -> Result<Vec<u8>, NoMemory>
    requires writable { is_writable what.now ≡ true }
    ensures row { IfOk result (λ row. IsRowOf row.items what.now) }
{
    let mut row = Vec::new(alloc);
    encode(what, &mut row)?;
    Ok(row)
}
