//! The values of fields.

ghost use Rattle.std.specs.Prelude.{◌≡◌, [], ◌∷◌, ◌++◌, map, IfOk, OnOk, option_map, string_bytes};
ghost use Rattle.rs_form.specs.Fields.{decoded_fields, values_among, form_values, one_value, first_value};

use form_urlencoded::{decode, raw_pairs};
use rs_path::NoMemory;
use std::alloc::Global;

/// The values of the fields with this name, in order, from a query or a form's body.
///
/// A `+` stands for a space and an escape for its byte; bytes that aren't UTF-8 read as U+FFFD. A field without
/// `=` has the empty value.
pub fn read_values(alloc: Global, query: &[u8], name: &str) -> Result<Vec<String>, NoMemory>
    ensures values { IfOk result (λ values. map string_bytes values.items ≡ form_values name.now query.now) }
{
    let mut values = Vec::new(alloc);
    for (key, value) in raw_pairs(query) {
        push_named(alloc, name, key, value, &mut values)?;
    }
    Ok(values)
}

// Appends the value of an encoded field, where it has this name.
fn push_named(
    alloc: Global,
    name: &str,
    key: &[u8],
    value: &[u8],
    values: &mut Vec<String>,
) -> Result<(), NoMemory>
    ensures { OnOk result (map string_bytes values.new.items
        ≡ map string_bytes values.old.items ++ values_among name.now (decoded_fields ((key.now, value.now) ∷ []))) }
{
    let key = decode(alloc, key)?;
    if key.as_str() != name {
        return Ok(());
    }
    let value = decode(alloc, value)?;
    values.push(value.into_owned(alloc)?)?;
    Ok(())
}

/// The value of a field that stands once, or None.
pub fn one_value(values: &[String]) -> Option<&str>
    ensures value { option_map (λ value. value.now) result ≡ one_value (map string_bytes values.now) }
{
    match values {
        [value] => Some(value.as_str()),
        _ => None,
    }
}

/// The value of a field where it stands first, or None.
pub fn first_value(values: &[String]) -> Option<&str>
    ensures value { option_map (λ value. value.now) result ≡ first_value (map string_bytes values.now) }
{
    match values {
        [value, ..] => Some(value.as_str()),
        [] => None,
    }
}
