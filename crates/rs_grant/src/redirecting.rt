//! Redirects back to the app.

ghost use Rattle.std.specs.Prelude.{◌≡◌, ◌++◌, [], IfOk, OnOk, OnErr};
ghost use Rattle.form_urlencoded.specs.Form.{extend_pairs};
ghost use Rattle.rs_grant.specs.Redirects.{outcome_fields, state_fields, redirect_fields, redirect_text};

use crate::outcome::Outcome;
use rs_form::append_field;
use rs_path::{Bytes, NoMemory};
use std::alloc::Global;

/// Appends the address of a redirect: the redirect address, `#`, and the fields of the outcome and the state.
///
/// A token goes as `access_token` and `token_type`, which is `bearer`; a word goes as `error`. Where memory runs out,
/// `out` is as before. RFC 6749, sections 4.2.2 and 4.2.2.1.
pub fn redirect(
    alloc: Global,
    to: &Bytes,
    outcome: &Outcome,
    state: &Option<Bytes>,
    out: &mut Vec<u8>,
) -> Result<(), NoMemory>
    ensures ok { OnOk result (out.new.items ≡ out.old.items ++ redirect_text to.now outcome.now state.now) }
    ensures err { OnErr result (out.new.items ≡ out.old.items) }
{
    let address = address_of(alloc, to, outcome, state)?;
    out.extend_from_slice(address.as_slice())?;
    Ok(())
}

fn address_of(
    alloc: Global,
    to: &Bytes,
    outcome: &Outcome,
    state: &Option<Bytes>,
) -> Result<Vec<u8>, NoMemory>
    ensures { IfOk result (λ address. address.items ≡ redirect_text to.now outcome.now state.now) }
{
    let fields = fields_of(alloc, outcome, state)?;
    let mut address = Vec::from_slice(alloc, to.as_slice())?;
    address.push(b'#')?;
    address.extend_from_slice(fields.as_slice())?;
    Ok(address)
}

fn fields_of(alloc: Global, outcome: &Outcome, state: &Option<Bytes>) -> Result<Vec<u8>, NoMemory>
    ensures { IfOk result (λ fields. fields.items ≡ extend_pairs [] (redirect_fields outcome.now state.now)) }
{
    let mut fields = Vec::new(alloc);
    append_outcome(&mut fields, outcome)?;
    append_state(&mut fields, state)?;
    Ok(fields)
}

fn append_outcome(fields: &mut Vec<u8>, outcome: &Outcome) -> Result<(), NoMemory>
    ensures ok { OnOk result (fields.new.items ≡ extend_pairs fields.old.items (outcome_fields outcome.now)) }
{
    match outcome {
        Outcome::Token(token) => {
            append_field(fields, "access_token", &token.digits())?;
            append_field(fields, "token_type", b"bearer")?;
            Ok(())
        }
        Outcome::Word(word) => {
            append_field(fields, "error", word.as_str().as_bytes())?;
            Ok(())
        }
    }
}

fn append_state(fields: &mut Vec<u8>, state: &Option<Bytes>) -> Result<(), NoMemory>
    ensures ok { OnOk result (fields.new.items ≡ extend_pairs fields.old.items (state_fields state.now)) }
{
    let Some(state) = state else {
        return Ok(());
    };
    append_field(fields, "state", state.as_slice())?;
    Ok(())
}
