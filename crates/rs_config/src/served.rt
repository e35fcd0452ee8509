//! The users of a server, read in turn.

ghost use Rattle.std.specs.Prelude.{◌≡◌, ◌≤◌, true, [], length, map, IfOk};
ghost use Rattle.std.specs.List.{list_all};
ghost use Rattle.toml.specs.View.{view};
ghost use Rattle.rs_path.specs.Users.{is_user};
ghost use Rattle.rs_exchange.specs.Accounts.{names_of};
ghost use Rattle.rs_config.specs.TomlValues.{GivesSetting};
ghost use Rattle.rs_config.specs.ServeSettings.{users_from};
ghost use Rattle.rs_config.specs.UsersSeen.{seen_users};

use crate::config_fault::ConfigFault;
use crate::serve_config::Room;
use crate::user_settings::user_of;
use rs_exchange::Accounts;
use std::alloc::Global;
use toml::Value;

/// The accounts and the rooms of users, in one order.
#[derive(Debug, Drop)]
pub(crate) struct Served {
    pub(crate) accounts: Accounts,
    pub(crate) rooms: Vec<Room>,
}

/// The users whom the values name.
pub(crate) fn read_users(alloc: Global, values: &[Value]) -> Result<Served, ConfigFault>
    requires few { length values.now ≤ 1000 }
    ensures users { GivesSetting seen_users result (users_from [] [] (map view values.now)) }
    ensures names { IfOk result (λ served. list_all is_user (names_of served.accounts) ≡ true) }
{
    let mut accounts = Accounts::new(alloc);
    let mut rooms = Vec::new(alloc);
    for value in values {
        let user = user_of(alloc, &accounts, rooms.as_slice(), value)?;
        accounts.push(user.account)?;
        rooms.push(user.room)?;
    }
    Ok(Served { accounts, rooms })
}
