//! What the file says of a user.

ghost use Rattle.std.specs.Prelude.{◌≡◌, true, length, IfOk};
ghost use Rattle.std.specs.List.{list_any};
ghost use Rattle.toml.specs.View.{view, table_view};
ghost use Rattle.rs_path.specs.Users.{is_user};
ghost use Rattle.rs_config.specs.TomlValues.{GivesSetting, seen_as};
ghost use Rattle.rs_config.specs.UserSettings.{user_setting, user_setting_in, user_with, name_setting, file_setting, salt_setting, secret_setting, secret_in, quota_setting, is_file_of};

use crate::config_fault::ConfigFault;
use crate::config_key::ConfigKey;
use crate::secret::read_secret;
use crate::serve_config::{Room, UserSettings};
use crate::values::{number_of, text_with, value_at};
use rs_exchange::{Account, Accounts};
use rs_path::{Bytes, NoMemory, is_user};
use std::alloc::Global;
use toml::{Table, Value};

/// How many bytes the documents of a user may have together, where the file doesn't say it.
pub const USUAL_QUOTA: u64 = 1_073_741_824;

/// What the value says of a user, beside these accounts and these rooms.
pub(crate) fn user_of(
    alloc: Global,
    accounts: &Accounts,
    rooms: &[Room],
    value: &Value,
) -> Result<UserSettings, ConfigFault>
    ensures user { GivesSetting (λ user. user) result (user_setting accounts.now rooms.now (view value.now)) }
    ensures name { IfOk result (λ user. is_user user.account.name ≡ true) }
{
    match value.as_table() {
        Some(table) => user_in(alloc, accounts, rooms, table),
        None => Err(ConfigFault::from(ConfigKey::User)),
    }
}

fn user_in(
    alloc: Global,
    accounts: &Accounts,
    rooms: &[Room],
    table: &Table,
) -> Result<UserSettings, ConfigFault>
    ensures user { GivesSetting (λ user. user) result (user_setting_in accounts.now rooms.now (table_view table.now)) }
    ensures name { IfOk result (λ user. is_user user.account.name ≡ true) }
{
    let name = name_of(accounts, table)?;
    let file = file_of(rooms, table)?;
    let salt = salt_of(table)?;
    let secret = secret_of(table)?;
    let quota = quota_of(table)?;
    Ok(user_with(alloc, name, file, salt, secret, quota)?)
}

fn user_with(
    alloc: Global,
    name: &str,
    file: &str,
    salt: &str,
    secret: Option<[u8; 32]>,
    quota: u64,
) -> Result<UserSettings, NoMemory>
    ensures user { IfOk result (λ user. user ≡ user_with name.now file.now salt.now secret quota) }
{
    Ok(UserSettings {
        account: Account {
            name: bytes_of(alloc, name)?,
            salt: bytes_of(alloc, salt)?,
            secret,
        },
        room: Room {
            file: bytes_of(alloc, file)?,
            quota,
        },
    })
}

/// The bytes of a text.
pub(crate) fn bytes_of(alloc: Global, text: &str) -> Result<Bytes, NoMemory>
    ensures same { IfOk result (λ bytes. bytes ≡ text.now) }
{
    Ok(Bytes::of(Vec::from_slice(alloc, text.as_bytes())?))
}

// The name of a user, which no account has.
fn name_of<'a>(accounts: &Accounts, table: &'a Table) -> Result<&'a str, ConfigKey>
    ensures name { seen_as (λ text. text.now) result ≡ name_setting accounts.now (table_view table.now) }
    ensures user { IfOk result (λ name. is_user name.now ≡ true) }
{
    match text_with(table, ConfigKey::Name) {
        Some(name) if is_user(name.as_bytes()) && accounts.find(name.as_bytes()).is_none() => Ok(
            name,
        ),
        _ => Err(ConfigKey::Name),
    }
}

// The file of a user's rows, a text that isn't empty and that no room has.
fn file_of<'a>(rooms: &[Room], table: &'a Table) -> Result<&'a str, ConfigKey>
    ensures file { seen_as (λ text. text.now) result ≡ file_setting rooms.now (table_view table.now) }
{
    match text_with(table, ConfigKey::File) {
        Some(file) if !file.is_empty() && !is_taken(rooms, file) => Ok(file),
        _ => Err(ConfigKey::File),
    }
}

fn is_taken(rooms: &[Room], file: &str) -> bool
    ensures taken { result ≡ list_any (is_file_of file.now) rooms.now }
{
    rooms
        .iter()
        .any(|room| room.file.as_slice() == file.as_bytes())
}

// The salt of a user, by default empty.
fn salt_of(table: &Table) -> Result<&str, ConfigKey>
    ensures salt { seen_as (λ text. text.now) result ≡ salt_setting (table_view table.now) }
{
    match value_at(table, ConfigKey::Salt) {
        Some(value) => match value.as_str() {
            Some(salt) => Ok(salt),
            None => Err(ConfigKey::Salt),
        },
        None => Ok(""),
    }
}

// The digest of a user's password, by default none.
fn secret_of(table: &Table) -> Result<Option<[u8; 32]>, ConfigKey>
    ensures secret { result ≡ secret_setting (table_view table.now) }
{
    match value_at(table, ConfigKey::Secret) {
        Some(value) => match secret_in(value) {
            Some(secret) => Ok(Some(secret)),
            None => Err(ConfigKey::Secret),
        },
        None => Ok(None),
    }
}

fn secret_in(value: &Value) -> Option<[u8; 32]>
    ensures secret { result ≡ secret_in (view value.now) }
{
    match value.as_str() {
        Some(text) => read_secret(text.as_bytes()),
        None => None,
    }
}

// The quota of a user in bytes, by default 1,073,741,824.
fn quota_of(table: &Table) -> Result<u64, ConfigKey>
    ensures quota { result ≡ quota_setting (table_view table.now) }
{
    match value_at(table, ConfigKey::Quota) {
        Some(value) => match number_of(value) {
            Some(quota) => Ok(quota),
            None => Err(ConfigKey::Quota),
        },
        None => Ok(USUAL_QUOTA),
    }
}
