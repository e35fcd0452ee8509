//! Keys that nobody asks for.

ghost use Rattle.std.specs.Prelude.{◌≡◌, ◌++◌, [], ◌∷◌, flat_map, map, not, if◌then◌else◌, OnOk, IfOk};
ghost use Rattle.toml.specs.View.{view, table_view};
ghost use Rattle.rs_config.specs.ConfigKeys.{is_known, top_keys, user_keys};
ghost use Rattle.rs_config.specs.ConfigReadings.{unknown_in, unknown_of_user, unknown_with};

use crate::config_key::{ConfigKey, TOP_KEYS, USER_KEYS, is_known};
use crate::user_settings::bytes_of;
use rs_path::{Bytes, NoMemory};
use std::alloc::Global;
use toml::{Table, Value};

/// The names of the keys that nobody asks for: those of the table, and then those of each user.
pub fn unknown_keys(alloc: Global, table: &Table, values: &[Value]) -> Result<Vec<Bytes>, NoMemory>
    ensures unknown { IfOk result (λ names. names.items ≡ unknown_with (table_view table.now) (map view values.now)) }
{
    let mut names = Vec::new(alloc);
    add_unknown(alloc, &mut names, TOP_KEYS.as_slice(), table)?;
    for value in values {
        add_of_user(alloc, &mut names, value)?;
    }
    Ok(names)
}

fn add_of_user(alloc: Global, names: &mut Vec<Bytes>, value: &Value) -> Result<(), NoMemory>
    ensures added { OnOk result (names.new.items ≡ names.old.items ++ unknown_of_user (view value.now)) }
{
    match value {
        Value::Table(table) => add_unknown(alloc, names, USER_KEYS.as_slice(), table),
        _ => Ok(()),
    }
}

// Appends the names of the table's keys that aren't known.
fn add_unknown(
    alloc: Global,
    names: &mut Vec<Bytes>,
    known: &[ConfigKey],
    table: &Table,
) -> Result<(), NoMemory>
    ensures added { OnOk result (names.new.items ≡ names.old.items ++ unknown_in known.now (table_view table.now)) }
{
    for (name, _value) in table.iter() {
        add_if_unknown(alloc, names, known, name.as_str())?;
    }
    Ok(())
}

fn add_if_unknown(
    alloc: Global,
    names: &mut Vec<Bytes>,
    known: &[ConfigKey],
    name: &str,
) -> Result<(), NoMemory>
    ensures added { OnOk result (names.new.items ≡ names.old.items ++ (if is_known known.now name.now then [] else name.now ∷ [])) }
{
    if is_known(known, name) {
        return Ok(());
    }
    names.push(bytes_of(alloc, name)?)?;
    Ok(())
}
