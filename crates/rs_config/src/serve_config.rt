//! What a configuration says.

use rs_exchange::{Account, Config};
use rs_path::Bytes;

/// What the configuration file of a server says.
#[derive(Debug, Drop)]
pub struct ServeConfig {
    /// Where the server listens, as the file says it. It isn't empty.
    pub listen: Bytes,
    /// How many seconds a read or a write of a connection may wait: 1 to 3,600.
    pub wait: u32,
    /// The server's address, its host, and the users' accounts: 1 to 1,000 of them.
    pub front: Config,
    /// The rooms of the users, in the order of their accounts, and as many.
    pub rooms: Vec<Room>,
    /// The names of the keys that the file has and nobody asks for: those at its top, in byte order, and then those of each user.
    pub unknown: Vec<Bytes>,
}

/// Where a user's documents are kept, and how much may be.
#[derive(Debug, Drop)]
pub struct Room {
    /// The file of the user's rows, as the configuration says it. It isn't empty, and no other user's.
    pub file: Bytes,
    /// How many bytes the user's documents may have together.
    pub quota: u64,
}

/// A user whom the configuration names.
#[derive(Debug, Drop)]
pub(crate) struct UserSettings {
    pub(crate) account: Account,
    pub(crate) room: Room,
}
