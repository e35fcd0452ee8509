//! What the rows of a database file are, by its mark.

ghost use Rattle.std.specs.Prelude.{◌≡◌, ◌≢◌};
ghost use Rattle.rs_sqlite.specs.declared.file_kind.FileKind.{FileKind};
ghost use Rattle.rs_sqlite.specs.FileKinds.{mark_of};

/// What the rows of a database file are.
///
/// The file says it by SQLite's user version (`PRAGMA user_version`): a number whose upper two bytes are `rs`. The
/// application id stays 0, since `sqlite` has no call that sets it.
#[derive(Debug, Clone, Copy, PartialEq, Eq)]
pub enum FileKind {
    /// The rows of a user: the user version is 0x72730001.
    UserRows,
    /// The rows of a client's journal: the user version is 0x72730002.
    Journal,
}

impl FileKind {
    /// The user version of a file of this kind.
    pub fn mark(self) -> u32
        ensures mark { result ≡ mark_of self }
    {
        match self {
            FileKind::UserRows => 0x7273_0001,
            FileKind::Journal => 0x7273_0002,
        }
    }
}

/// Files of two kinds have two marks, and no mark is 0, the user version of a file without one. The function does nothing:
/// its contract is the law.
pub fn kind_laws()
    ensures apart { (kind other : FileKind) → mark_of kind ≡ mark_of other → kind ≡ other }
    ensures some { (kind : FileKind) → mark_of kind ≢ 0 }
{}
