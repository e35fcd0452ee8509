//! What stands at the top of the file.

ghost use Rattle.std.specs.Prelude.{◌≡◌, ◌≤◌, map, length, option_map, IfOk};
ghost use Rattle.toml.specs.Data.{as_array};
ghost use Rattle.toml.specs.View.{view, table_view};
ghost use Rattle.rs_config.specs.TomlValues.{GivesSetting, seen_as};
ghost use Rattle.rs_config.specs.ServeSettings.{base_setting, listen_setting, wait_setting, wait_in, list_of_items, user_array, user_values};

use crate::config_fault::ConfigFault;
use crate::config_key::ConfigKey;
use crate::origin::is_origin;
use crate::values::{number_of, text_with, value_at};
use rs_path::NoMemory;
use std::alloc::Global;
use toml::{Table, Value};

/// How many seconds a read or a write of a connection may wait, where the file doesn't say it.
pub const DEFAULT_WAIT: u32 = 10;

/// The most seconds that it may wait.
pub const MAX_WAIT: u32 = 3_600;

/// The most users of a server.
pub const MAX_USERS: usize = 1_000;

/// The address of the server: an origin of `http` or `https` as `url` prints it, without the last `/`.
pub fn base_of(alloc: Global, table: &Table) -> Result<&str, ConfigFault>
    ensures base { GivesSetting (λ text. text.now) result (base_setting (table_view table.now)) }
{
    let Some(text) = text_with(table, ConfigKey::Base) else {
        return Err(ConfigFault::from(ConfigKey::Base));
    };
    if !is_origin(alloc, text)? {
        return Err(ConfigFault::from(ConfigKey::Base));
    }
    Ok(text)
}

/// Where the server listens: a text that isn't empty.
pub fn listen_of(table: &Table) -> Result<&str, ConfigKey>
    ensures listen { seen_as (λ text. text.now) result ≡ listen_setting (table_view table.now) }
{
    match text_with(table, ConfigKey::Listen) {
        Some(text) if !text.is_empty() => Ok(text),
        _ => Err(ConfigKey::Listen),
    }
}

/// How long a read or a write of a connection may wait, in seconds: 1 to 3,600, by default 10.
pub fn wait_of(table: &Table) -> Result<u32, ConfigKey>
    ensures wait { result ≡ wait_setting (table_view table.now) }
{
    match value_at(table, ConfigKey::Wait) {
        Some(value) => match wait_in(value) {
            Some(wait) => Ok(wait),
            None => Err(ConfigKey::Wait),
        },
        None => Ok(DEFAULT_WAIT),
    }
}

fn wait_in(value: &Value) -> Option<u32>
    ensures { result ≡ wait_in (view value.now) }
{
    match number_of(value) {
        Some(number) if 1 <= number && number <= MAX_WAIT as u64 => Some(number as u32),
        _ => None,
    }
}

/// The values of the users: 1 to 1,000 of them.
pub fn values_of_users(table: &Table) -> Result<&[Value], ConfigKey>
    ensures values { seen_as (λ values. map view values.now) result ≡ user_values (table_view table.now) }
    ensures few { IfOk result (λ values. length values.now ≤ 1000) }
{
    match array_of_users(table) {
        Some(values) if 1 <= values.len() && values.len() <= MAX_USERS => Ok(values),
        _ => Err(ConfigKey::User),
    }
}

// The array of the users, if it is one.
fn array_of_users(table: &Table) -> Option<&[Value]>
    ensures array { option_map (λ values. map view values.now) result ≡ user_array (table_view table.now) }
{
    match value_at(table, ConfigKey::User) {
        Some(value) => items_in(value),
        None => None,
    }
}

fn items_in(value: &Value) -> Option<&[Value]>
    ensures items { option_map (λ values. map view values.now) result ≡ option_map list_of_items (as_array (view value.now)) }
{
    match value.as_array() {
        Some(values) => Some(values.as_slice()),
        None => None,
    }
}
