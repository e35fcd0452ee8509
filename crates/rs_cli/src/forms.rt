//! The table of the forms that the words of a command line may have.

ghost use Rattle.std.specs.Prelude.{◌≡◌, IfOk, is_ok};
ghost use Rattle.rs_scope.specs.ScopeReadings.{scopes_reading};
ghost use Rattle.rs_talk.specs.Roots.{root_reading};
ghost use Rattle.rs_cli.specs.Forms.{forms, how_spelled, is_document_path, is_folder, path_spelled};

use crate::number::read_number;
use rs_cache::Resolve;
use rs_config::{is_origin, read_secret};
use rs_path::{Kind, NoMemory, Path, PathFault, is_user};
use rs_scope::{ScopeFault, Scopes, Token};
use rs_talk::{Bearer, Root, RootFault};
use std::alloc::Global;

/// What stands at a place of a form.
#[derive(Clone, Copy, Debug)]
pub enum Place {
    /// USER: 1 to 32 of `a` to `z`, digits, `-` and `_`.
    User,
    /// TOKEN: 32 lower hexadecimal digits.
    Token,
    /// SCOPES: items `MODULE:r`, `MODULE:rw`, `*:r` and `*:rw` parted by spaces.
    Scopes,
    /// A number: decimal digits without a zero in front, at most 18446744073709551615.
    Number,
    /// BASE: an origin of `http` or `https`, as `url` prints it.
    Origin,
    /// SALT: any word.
    Any,
    /// SECRET: 64 lower hexadecimal digits.
    Secret,
    /// ROOT: the `http` address of an account, as `Root::read` reads it.
    Root,
    /// TOKEN of an account: 1 to 1,024 letters, digits and `-._~+/`, and `=` at the end.
    Bearer,
    /// PATH: a document, in the spelling of a request's target.
    Document,
    /// FOLDER: a folder, in the spelling of a request's target.
    Folder,
    /// TYPE: a content type.
    Kind,
    /// `keep` or `drop`.
    How,
}

/// A form, which is a row of the table.
#[derive(Clone, Copy, Debug)]
pub enum Form {
    /// `pipe USER TOKEN SCOPES`
    Pipe,
    /// `pipe USER TOKEN SCOPES QUOTA`
    PipeUnder,
    /// `pipe USER TOKEN SCOPES QUOTA BASE SALT SECRET`
    PipeAt,
    /// `grant SCOPES`
    Grant,
    /// `revoke TOKEN`
    Revoke,
    /// `connect ROOT TOKEN SCOPES`
    Connect,
    /// `put PATH TYPE`
    Put,
    /// `get PATH`
    Get,
    /// `rm PATH`
    Remove,
    /// `ls FOLDER`
    List,
    /// `status`
    Status,
    /// `conflicts`
    Conflicts,
    /// `resolve N keep` and `resolve N drop`
    Resolve,
    /// `--help`
    Help,
    /// `--version`
    Version,
}

/// A row: the name of the command, and the places behind it.
#[derive(Clone, Copy, Debug)]
pub struct Row {
    pub name: &'static [u8],
    pub places: &'static [Place],
}

/// The forms, in the order of `--help`.
pub fn forms() -> &'static [Form]
    ensures forms { result.now ≡ forms }
{
    &[
        Form::Pipe,
        Form::PipeUnder,
        Form::PipeAt,
        Form::Grant,
        Form::Revoke,
        Form::Connect,
        Form::Put,
        Form::Get,
        Form::Remove,
        Form::List,
        Form::Status,
        Form::Conflicts,
        Form::Resolve,
        Form::Help,
        Form::Version,
    ]
}

impl Form {
    ghost use Rattle.std.specs.Prelude.{◌≡◌};
    ghost use Rattle.rs_cli.specs.Forms.{named_places};

    /// The row of the form.
    pub fn row(self) -> Row
        ensures name { result.name.now ≡ (named_places self).name }
        ensures places { result.places.now ≡ (named_places self).places }
    {
        match self {
            Form::Pipe => named(b"pipe", &[Place::User, Place::Token, Place::Scopes]),
            Form::PipeUnder => named(
                b"pipe",
                &[Place::User, Place::Token, Place::Scopes, Place::Number],
            ),
            Form::PipeAt => named(
                b"pipe",
                &[
                    Place::User,
                    Place::Token,
                    Place::Scopes,
                    Place::Number,
                    Place::Origin,
                    Place::Any,
                    Place::Secret,
                ],
            ),
            Form::Grant => named(b"grant", &[Place::Scopes]),
            Form::Revoke => named(b"revoke", &[Place::Token]),
            Form::Connect => named(b"connect", &[Place::Root, Place::Bearer, Place::Scopes]),
            Form::Put => named(b"put", &[Place::Document, Place::Kind]),
            Form::Get => named(b"get", &[Place::Document]),
            Form::Remove => named(b"rm", &[Place::Document]),
            Form::List => named(b"ls", &[Place::Folder]),
            Form::Status => named(b"status", &[]),
            Form::Conflicts => named(b"conflicts", &[]),
            Form::Resolve => named(b"resolve", &[Place::Number, Place::How]),
            Form::Help => named(b"--help", &[]),
            Form::Version => named(b"--version", &[]),
        }
    }
}

fn named(name: &'static [u8], places: &'static [Place]) -> Row
    ensures name { result.name.now ≡ name.now }
    ensures places { result.places.now ≡ places.now }
{
    Row { name, places }
}

impl Place {
    ghost use Rattle.std.specs.Prelude.{◌≡◌, IfOk};
    ghost use Rattle.rs_cli.specs.Forms.{takes};

    /// Whether the place takes the word.
    pub fn takes(self, alloc: Global, word: &str) -> Result<bool, NoMemory>
        ensures takes { IfOk result (λ is. is ≡ takes self word.now) }
    {
        match self {
            Place::User => Ok(is_user(word.as_bytes())),
            Place::Token => Ok(Token::read(word.as_bytes()).is_some()),
            Place::Scopes => spells_scopes(alloc, word.as_bytes()),
            Place::Number => Ok(read_number(word).is_some()),
            Place::Origin => is_origin(alloc, word),
            Place::Any => Ok(true),
            Place::Secret => Ok(read_secret(word.as_bytes()).is_some()),
            Place::Root => names_root(alloc, word.as_bytes()),
            Place::Bearer => Ok(Bearer::read(alloc, word.as_bytes())?.is_some()),
            Place::Document => Ok(is_document_path(&read_path(alloc, word.as_bytes())?)),
            Place::Folder => Ok(is_folder(&read_path(alloc, word.as_bytes())?)),
            Place::Kind => Ok(Kind::read(alloc, word.as_bytes())?.is_some()),
            Place::How => Ok(read_how(word).is_some()),
        }
    }
}

fn spells_scopes(alloc: Global, word: &[u8]) -> Result<bool, NoMemory>
    ensures spells { IfOk result (λ is. is ≡ is_ok (scopes_reading word.now)) }
{
    match Scopes::read(alloc, word) {
        Ok(_) => Ok(true),
        Err(ScopeFault::Bad { .. }) => Ok(false),
        Err(ScopeFault::NoMemory) => Err(NoMemory),
    }
}

fn names_root(alloc: Global, word: &[u8]) -> Result<bool, NoMemory>
    ensures names { IfOk result (λ is. is ≡ is_ok (root_reading word.now)) }
{
    match Root::read(alloc, word) {
        Ok(_) => Ok(true),
        Err(RootFault::BadUrl | RootFault::Https) => Ok(false),
        Err(RootFault::NoMemory) => Err(NoMemory),
    }
}

/// The path that the word spells as it stands in the target of a request, if it spells one.
pub fn read_path(alloc: Global, word: &[u8]) -> Result<Option<Path>, NoMemory>
    ensures path { IfOk result (λ path. path ≡ path_spelled word.now) }
{
    match Path::read(alloc, word) {
        Ok(path) => Ok(Some(path)),
        Err(PathFault::Bad { .. }) => Ok(None),
        Err(PathFault::NoMemory) => Err(NoMemory),
    }
}

fn is_document_path(path: &Option<Path>) -> bool
    ensures document { result ≡ is_document_path path.now }
{
    match path {
        Some(path) => !path.is_folder(),
        None => false,
    }
}

fn is_folder(path: &Option<Path>) -> bool
    ensures folder { result ≡ is_folder path.now }
{
    match path {
        Some(path) => path.is_folder(),
        None => false,
    }
}

/// How a conflict is resolved, by its word.
pub fn read_how(word: &str) -> Option<Resolve>
    ensures how { result ≡ how_spelled word.now }
{
    match word {
        "keep" => Some(Resolve::Keep),
        "drop" => Some(Resolve::Drop),
        _ => None,
    }
}
