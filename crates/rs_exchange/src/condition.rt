//! The conditions that the fields of a request are (RFC 9110, section 13.1).

ghost use Rattle.std.specs.Prelude.{◌≡◌, IfOk};
ghost use Rattle.rs_exchange.specs.Conditions.{cond_of, cond_of_text, are_conditions};
ghost use Rattle.rs_exchange.specs.Fields.{values_of};

use crate::fields::joined;
use rs_path::NoMemory;
use rs_rules::{Cond, CondFault};
use rs_wire::Field;
use std::alloc::Global;

/// No condition has so many bytes: places in its text have 32 bits. The head of a message that was read is far shorter.
const MAX_CONDITION: usize = 4_294_967_296;

/// The condition that the fields of this name are, or None where they are none.
pub(crate) fn read_cond(
    alloc: Global,
    fields: &[Field],
    name: &[u8],
) -> Result<Option<Cond>, NoMemory>
    ensures cond { IfOk result (λ cond. cond ≡ cond_of (values_of name.now fields.now)) }
{
    match joined(alloc, fields, name)? {
        Some(text) => cond_of_text(alloc, text.as_slice()),
        None => Ok(Some(Cond::Missing)),
    }
}

fn cond_of_text(alloc: Global, text: &[u8]) -> Result<Option<Cond>, NoMemory>
    ensures cond { IfOk result (λ cond. cond ≡ cond_of_text text.now) }
{
    if text.len() >= MAX_CONDITION {
        return Ok(None);
    }
    match Cond::read(alloc, text) {
        Ok(cond) => Ok(Some(cond)),
        Err(CondFault::Bad { .. }) => Ok(None),
        Err(CondFault::NoMemory) => Err(NoMemory),
    }
}

/// Whether the conditions of a request with these fields are conditions.
pub(crate) fn are_conditions(alloc: Global, fields: &[Field]) -> Result<bool, NoMemory>
    ensures are { IfOk result (λ are. are ≡ are_conditions fields.now) }
{
    let matched = read_cond(alloc, fields, b"if-match")?;
    let unmatched = read_cond(alloc, fields, b"if-none-match")?;
    Ok(matched.is_some() && unmatched.is_some())
}
