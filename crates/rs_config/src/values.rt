//! Values of TOML at keys.

ghost use Rattle.std.specs.Prelude.{◌≡◌, option_map};
ghost use Rattle.toml.specs.Data.{get_member, as_integer};
ghost use Rattle.toml.specs.View.{view, table_view};
ghost use Rattle.rs_config.specs.ConfigKeys.{config_key_text};
ghost use Rattle.rs_config.specs.TomlValues.{text_with, natural, number_of};

use crate::config_key::ConfigKey;
use toml::{Table, Value};

/// The value at the key, if there is one.
pub fn value_at(table: &Table, key: ConfigKey) -> Option<&Value>
    ensures value { option_map (λ value. view value.now) result ≡ get_member (config_key_text key) (table_view table.now) }
{
    table.get(key.text())
}

/// The text at the key, if there is one.
pub fn text_with(table: &Table, key: ConfigKey) -> Option<&str>
    ensures text { option_map (λ text. text.now) result ≡ text_with key (table_view table.now) }
{
    match value_at(table, key) {
        Some(value) => value.as_str(),
        None => None,
    }
}

/// The number that isn't negative which the value is, if it is one.
pub fn number_of(value: &Value) -> Option<u64>
    ensures number { result ≡ number_of (view value.now) }
{
    match value.as_integer() {
        Some(number) => natural(number),
        None => None,
    }
}

fn natural(number: i64) -> Option<u64>
    ensures natural { result ≡ natural number }
{
    if number < 0 {
        return None;
    }
    Some(number as u64)
}
