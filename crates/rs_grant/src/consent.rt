//! Consents read.

ghost use Rattle.std.specs.Prelude.{◌≡◌, map, IfOk, option_map, string_bytes};
ghost use Rattle.rs_form.specs.Fields.{one_value};
ghost use Rattle.rs_grant.specs.Consents.{choice_of, choice_reading, consent_reading, ReadsConsent, CanAnswerConsent};

use crate::ask::Ask;
use crate::asking::{copy_text, read_ask};
use crate::choice::Choice;
use crate::grant_fault::GrantFault;
use rs_form::{one_value, read_values};
use rs_path::{Bytes, NoMemory};
use std::alloc::Global;

/// What a form of the consent page asks for, and what the user chose.
///
/// The faults are those of `read_ask`; what the user chose is an answer, whatever it is.
pub fn read_consent(alloc: Global, body: &[u8]) -> Result<(Ask, Choice), GrantFault>
    ensures read { ReadsConsent result (consent_reading body.now) }
    ensures answered { CanAnswerConsent result }
{
    match read_ask(alloc, body) {
        Ok(ask) => {
            let choice = read_choice(alloc, body)?;
            Ok((ask, choice))
        }
        Err(fault) => Err(fault),
    }
}

fn read_choice(alloc: Global, body: &[u8]) -> Result<Choice, NoMemory>
    ensures { IfOk result (λ choice. choice ≡ choice_reading body.now) }
{
    let choices = read_values(alloc, body, "choice")?;
    let passwords = read_values(alloc, body, "password")?;
    let password = copy_one(alloc, passwords.as_slice())?;
    Ok(choice_of(one_value(choices.as_slice()), password))
}

fn choice_of(choice: Option<&str>, password: Option<Bytes>) -> Choice
    ensures { result ≡ choice_of (option_map (λ text. text.now) choice.entry) password }
{
    let Some(text) = choice else {
        return Choice::Other;
    };
    if text == "deny" {
        return Choice::Deny;
    }
    if text == "allow" {
        return Choice::Allow { password };
    }
    Choice::Other
}

fn copy_one(alloc: Global, values: &[String]) -> Result<Option<Bytes>, NoMemory>
    ensures { IfOk result (λ one. one ≡ one_value (map string_bytes values.now)) }
{
    match one_value(values) {
        Some(value) => Ok(Some(copy_text(alloc, value)?)),
        None => Ok(None),
    }
}
