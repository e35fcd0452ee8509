//! The configuration file read.

ghost use Rattle.std.specs.Prelude.{◌≡◌, ◌≤◌, true, length, map, IfOk};
ghost use Rattle.std.specs.List.{list_all};
ghost use Rattle.toml.specs.View.{view, table_view};
ghost use Rattle.rs_path.specs.Users.{is_user};
ghost use Rattle.rs_exchange.specs.Accounts.{IsConfig, names_of};
ghost use Rattle.rs_config.specs.ServeSettings.{settings_with};
ghost use Rattle.rs_config.specs.UsersSeen.{seen_users};
ghost use Rattle.rs_config.specs.ConfigReadings.{ConfiguresFrom, ReadsConfig, HasSettings, unknown_with};

use crate::config_fault::ConfigFault;
use crate::origin::host_of;
use crate::serve_config::ServeConfig;
use crate::served::{Served, read_users};
use crate::settings::{base_of, listen_of, values_of_users, wait_of};
use crate::unknown::unknown_keys;
use crate::user_settings::bytes_of;
use rs_exchange::Config;
use rs_path::{Bytes, NoMemory};
use std::alloc::Global;
use toml::{Table, Value};

/// What a configuration file says, which is TOML (TOML 1.0.0) with these keys:
///
/// | Key | Value | Where it is missing |
/// |---|---|---|
/// | `base` | an origin of `http` or `https`, as `url` prints it, without a last `/` | refused |
/// | `listen` | a text that isn't empty | refused |
/// | `wait` | 1 to 3,600 seconds | 10 |
/// | `user` | 1 to 1,000 tables | refused |
/// | `name` of a user | a user's name, no other user's | refused |
/// | `file` of a user | a text that isn't empty, no other user's | refused |
/// | `salt` of a user | a text | empty |
/// | `secret` of a user | 64 lower hexadecimal digits: the SHA-256 of the salt followed by the password | no password |
/// | `quota` of a user | a whole number of bytes that isn't negative | 1,073,741,824 |
///
/// They are looked at in this order, users in theirs. `Key` names the first that is missing and may not be, or whose value has
/// another type or isn't as the table says. `Toml` comes exactly where the text is no TOML or no UTF-8. Other keys are no fault.
pub fn read_config(alloc: Global, text: &[u8]) -> Result<ServeConfig, ConfigFault>
    ensures read { ReadsConfig text.now result }
    ensures config { IfOk result (λ config. IsConfig config.front) }
{
    match toml::table_from_slice(alloc, text) {
        Ok(table) => config_of(alloc, &table),
        Err(error) if error.is_memory() => Err(ConfigFault::NoMemory),
        Err(_) => Err(ConfigFault::Toml),
    }
}

fn config_of(alloc: Global, table: &Table) -> Result<ServeConfig, ConfigFault>
    ensures configured { ConfiguresFrom (table_view table.now) result }
    ensures config { IfOk result (λ config. IsConfig config.front) }
{
    let base = base_of(alloc, table)?;
    let listen = listen_of(table)?;
    let wait = wait_of(table)?;
    let values = values_of_users(table)?;
    let served = read_users(alloc, values)?;
    Ok(config_with(alloc, base, listen, wait, served, table, values)?)
}

fn config_with(
    alloc: Global,
    base: &str,
    listen: &str,
    wait: u32,
    served: Served,
    table: &Table,
    values: &[Value],
) -> Result<ServeConfig, NoMemory>
    requires names { list_all is_user (names_of served.accounts) ≡ true }
    ensures settings { IfOk result (HasSettings (settings_with base.now listen.now wait (seen_users served)) (unknown_with (table_view table.now) (map view values.now))) }
    ensures config { IfOk result (λ config. IsConfig config.front) }
{
    let Served { accounts, rooms } = served;
    Ok(ServeConfig {
        listen: bytes_of(alloc, listen)?,
        wait,
        front: Config {
            base: bytes_of(alloc, base)?,
            host: Bytes::of(Vec::from_slice(alloc, host_of(base.as_bytes()))?),
            accounts,
        },
        rooms,
        unknown: unknown_keys(alloc, table, values)?,
    })
}
