//! The fields of a request that this server reads.

ghost use Rattle.std.specs.Prelude.{◌≡◌, ◌++◌, ◌∷◌, [], ℕ, List, IfOk, OnOk, option_map};
ghost use Rattle.rs_exchange.specs.Fields.{values_of, joined, with_value, Occurring};

use rs_path::NoMemory;
use rs_wire::Field;
use std::alloc::Global;

/// How often a field occurs, with its value where that is once.
#[derive(Clone, Copy, Debug)]
pub(crate) enum Occurs<'a> {
    Never,
    Once(&'a [u8]),
    Often,
}

/// How often there is a field of that name.
pub(crate) fn look_up<'a>(fields: &'a [Field], name: &[u8]) -> Occurs<'a>
    ensures occurs { Occurring result (values_of name.now fields.now) }
{
    let mut occurs = Occurs::Never;
    for field in fields {
        if field.is_named(name) {
            occurs = once_more(occurs, field.value.as_slice());
        }
    }
    occurs
}

// How often a field occurs that occurred so, and then once more.
fn once_more<'a>(occurs: Occurs<'a>, value: &'a [u8]) -> Occurs<'a>
    ensures more { (values : List (List ℕ)) → Occurring occurs.entry values → Occurring result (values ++ value.now ∷ []) }
{
    match occurs {
        Occurs::Never => Occurs::Once(value),
        Occurs::Once(_) => Occurs::Often,
        Occurs::Often => Occurs::Often,
    }
}

/// The values of the fields of that name, joined by a comma and a space in their order (RFC 9110, section 5.3), or None where
/// there is no such field.
pub(crate) fn joined(
    alloc: Global,
    fields: &[Field],
    name: &[u8],
) -> Result<Option<Vec<u8>>, NoMemory>
    ensures joined { IfOk result (λ text. option_map (λ text. text.items) text ≡ joined (values_of name.now fields.now)) }
{
    let mut text = None;
    for field in fields {
        if field.is_named(name) {
            text = Some(with_value(alloc, text, field.value.as_slice())?);
        }
    }
    Ok(text)
}

// The text with one more value.
fn with_value(alloc: Global, text: Option<Vec<u8>>, value: &[u8]) -> Result<Vec<u8>, NoMemory>
    ensures more { IfOk result (λ longer. longer.items ≡ with_value (option_map (λ text. text.items) text) value.now) }
{
    match text {
        None => Ok(Vec::from_slice(alloc, value)?),
        Some(text) => {
            let mut longer = text;
            longer.extend_from_slice(b", ")?;
            longer.extend_from_slice(value)?;
            Ok(longer)
        }
    }
}
