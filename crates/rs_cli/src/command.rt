//! Commands.

ghost use Rattle.std.specs.Prelude.{◌≡◌, true, false};
ghost use Rattle.rs_path.specs.Users.{is_user};

use rs_cache::Resolve;
use rs_path::{Kind, NoMemory, Path};
use rs_scope::{Scopes, Token};
use rs_talk::{Bearer, Root};

/// Whom `pipe` serves, where, and which token with which scopes.
#[derive(Debug, Drop)]
pub struct Serving<'a> {
    /// The user, whose name is one of a user.
    pub user: &'a [u8],
    pub token: Token,
    pub scopes: Scopes,
    /// In bytes.
    pub quota: u64,
    /// The address that the server's own begin with.
    pub base: &'a str,
    /// What stands before the user's password where its digest is made.
    pub salt: &'a [u8],
    /// The SHA-256 of the salt and the password, where the user has one.
    pub secret: Option<[u8; 32]>,
    ghost named: { is_user user.now ≡ true },
}

/// The path of a document.
#[derive(Debug, Drop)]
pub struct Document {
    pub path: Path,
    ghost document: { path.folder ≡ false },
}

/// The path of a folder.
#[derive(Debug, Drop)]
pub struct Folder {
    pub path: Path,
    ghost folder: { path.folder ≡ true },
}

/// What the words of a command line ask for.
#[derive(Debug, Drop)]
pub enum Command<'a> {
    /// `pipe USER TOKEN SCOPES [QUOTA [BASE SALT SECRET]]`: grants the token these scopes where it isn't granted, and serves
    /// the source to the sink. The quota is in bytes, and 1,073,741,824 where none is given; then the address is
    /// `http://localhost`, and the user has no password.
    Pipe {
        serving: Serving<'a>,
    },
    /// `grant SCOPES`: grants a token of two random words these scopes, and prints it.
    Grant {
        scopes: Scopes,
    },
    /// `revoke TOKEN`: takes the token's scopes away.
    Revoke {
        token: Token,
    },
    /// `connect ROOT TOKEN SCOPES`: connects the client of an empty journal to the account, and prints `connected`.
    Connect {
        root: Root,
        token: Bearer,
        scopes: Scopes,
    },
    /// `put PATH TYPE`: the source, up to its end, is the document from now on. Prints `put`.
    Put {
        document: Document,
        kind: Kind,
    },
    /// `get PATH`: prints the body of the document, and nothing else.
    Get {
        document: Document,
    },
    /// `rm PATH`: there is no such document from now on. Prints `removed`.
    Remove {
        document: Document,
    },
    /// `ls FOLDER`: prints the names in the folder, a line each, folders with `/`.
    List {
        folder: Folder,
    },
    /// `status`: prints the root, and counts of documents, changes that wait, held ones, and conflicts.
    Status,
    /// `conflicts`: prints a line for each conflict.
    Conflicts,
    /// `resolve N keep` and `resolve N drop`: the change of a conflict waits again, or is given up. Prints `resolved`.
    Resolve {
        n: u64,
        how: Resolve,
    },
    /// `--help`: prints the forms of the words.
    Help,
    /// `--version`: prints the program's version.
    Version,
}

impl Command<'_> {
    ghost use Rattle.std.specs.Prelude.{◌≡◌};
    ghost use Rattle.rs_cli.specs.Commands.{file_of};

    /// Which file of rows the command wants.
    pub fn rows_file(&self) -> RowsFile
        ensures file { result ≡ file_of self.now }
    {
        match self {
            Command::Pipe { .. } | Command::Grant { .. } | Command::Revoke { .. } => RowsFile::User,
            Command::Connect { .. }
            | Command::Put { .. }
            | Command::Get { .. }
            | Command::Remove { .. }
            | Command::List { .. }
            | Command::Status
            | Command::Conflicts
            | Command::Resolve { .. } => RowsFile::Journal,
            Command::Help | Command::Version => RowsFile::None,
        }
    }
}

/// A file of rows, by what it is of.
#[derive(Clone, Copy, Debug, PartialEq, Eq)]
pub enum RowsFile {
    /// No file.
    None,
    /// The rows of a user.
    User,
    /// The rows of a client's journal.
    Journal,
}

/// Why words are no command.
#[derive(Debug, Clone, Copy, PartialEq, Eq)]
pub enum WordFault {
    /// The index, counted from 0, of the first word with which no form goes on; the number of words where they begin a
    /// form and none ends there.
    Word { index: u64 },
    /// The word behind `connect` is an `https` address, which isn't served.
    Https,
    /// Memory ran out.
    NoMemory,
}

impl From<NoMemory> for WordFault {
    ghost use Rattle.std.specs.Prelude.{◌≡◌};
    ghost use Rattle.rs_cli.specs.declared.command.WordFault.TheVariants.{NoMemory};

    ghost from_gives = { λ _ fault. fault ≡ NoMemory };

    fn from(_e: NoMemory) -> WordFault {
        WordFault::NoMemory
    }
}
