//! How `serve` ended.

ghost use Rattle.std.specs.Prelude.{◌≡◌, Some, None};
ghost use Rattle.rs_cli.specs.Notes.{code_of};

use rs_cli::{Note, Status};

/// How `serve` ended, and whose rows weren't opened.
#[derive(Debug, PartialEq, Eq, Drop)]
pub struct ServeStatus {
    /// The code that the program ends with, and what it says about it.
    pub status: Status,
    /// The place, counted from 0 among the users, of the user whose rows weren't opened. None where another cause or none ended it.
    pub user: Option<u32>,
}

impl ServeStatus {
    // An end with this note, for another cause than a user's rows.
    pub(crate) fn of(note: Note) -> ServeStatus
        ensures note { result.status.note ≡ note }
        ensures code { result.status.code ≡ code_of note }
        ensures nobody { result.user ≡ None }
    {
        ServeStatus {
            status: note.status(),
            user: None,
        }
    }

    // An end with this note, since this user's rows weren't opened.
    pub(crate) fn of_user(note: Note, user: u32) -> ServeStatus
        ensures note { result.status.note ≡ note }
        ensures code { result.status.code ≡ code_of note }
        ensures user { result.user ≡ Some user }
    {
        ServeStatus {
            status: note.status(),
            user: Some(user),
        }
    }
}
