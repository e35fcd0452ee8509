//! The words of the command line read as a command.

ghost use Rattle.std.specs.Prelude.{◌≡◌, ◌≤◌, true, Some, Ok, length, map, is_some, string_bytes, IfOk};
ghost use Rattle.rs_path.specs.Kinds.{is_kind};
ghost use Rattle.rs_path.specs.Users.{is_user};
ghost use Rattle.rs_scope.specs.Tokens.{token_reading};
ghost use Rattle.rs_scope.specs.ScopeReadings.{scopes_reading};
ghost use Rattle.rs_talk.specs.Bearers.{is_bearer};
ghost use Rattle.rs_talk.specs.Roots.{root_reading};
ghost use Rattle.rs_cli.specs.Numbers.{number_spelled};
ghost use Rattle.rs_cli.specs.Forms.{how_spelled, path_spelled, takes, tests_of};
ghost use Rattle.rs_cli.specs.Scans.{count_taken, fits};
ghost use Rattle.rs_cli.specs.Commands.{AsksFor, FindsAmong, FindsForm, ReadsCommand, words_fault, names_https, plain_setting, setting_in, word_at};
ghost use Rattle.rs_config.specs.Secrets.{secret_reading};

use crate::command::{Command, Document, Folder, Serving, WordFault};
use crate::forms::{Form, Place, forms, read_how, read_path};
use crate::number::read_number;
use rs_cache::Resolve;
use rs_config::read_secret;
use rs_path::{Kind, NoMemory};
use rs_scope::{Scopes, Token};
use rs_talk::{Bearer, Root, RootFault};
use std::alloc::Global;

/// The quota where none is given, in bytes.
pub const DEFAULT_QUOTA: u64 = 1_073_741_824;

/// The server's address where none is given.
const DEFAULT_BASE: &str = "http://localhost";

/// Reads the words, without the program's name, as a command. A word is wrong where none of the forms goes on with the
/// words up to it; the first wrong word is told by its index, counted from 0. Where the words begin a form and none ends
/// there, this is the number of words. Where it is the word behind `connect`, and an `https` address, this is told instead.
pub fn read_command<'a>(alloc: Global, words: &'a [String]) -> Result<Command<'a>, WordFault>
    ensures read { ReadsCommand result (map string_bytes words.now) }
{
    match find_form(alloc, words) {
        Ok(form) => Ok(command_of(alloc, form, words)?),
        Err(WordFault::Word { index }) => Err(words_fault(alloc, words, index)?),
        Err(fault) => Err(fault),
    }
}

// What is said of the first wrong word, at this index.
fn words_fault(alloc: Global, words: &[String], index: u64) -> Result<WordFault, NoMemory>
    ensures fault { IfOk result (λ fault. fault ≡ words_fault (map string_bytes words.now) index) }
{
    if index == 1 && names_https(alloc, words)? {
        Ok(WordFault::Https)
    } else {
        Ok(WordFault::Word { index })
    }
}

// ---- the form of the words

// The form that the words are in.
fn find_form(alloc: Global, words: &[String]) -> Result<Form, WordFault>
    ensures found { FindsForm result (map string_bytes words.now) }
{
    find_among(alloc, forms(), words, 0)
}

// The form among these that the words are in. Where they are in none, the first wrong word stands behind the most words that
// took their places, in these or, so many, in others.
fn find_among(
    alloc: Global,
    forms: &[Form],
    words: &[String],
    most: usize,
) -> Result<Form, WordFault>
    ensures found { FindsAmong forms.now most result (map string_bytes words.now) }
{
    match forms {
        [] => Err(WordFault::Word { index: most as u64 }),
        [form, others @ ..] => {
            let count = count_of(alloc, *form, words)?;
            if is_whole(*form, count, words) {
                Ok(*form)
            } else {
                find_among(alloc, others, words, most.max(count))
            }
        }
    }
}

// The words are in the form, where so many in front take their places.
fn is_whole(form: Form, count: usize, words: &[String]) -> bool
    requires count { count ≡ count_taken (tests_of form) (map string_bytes words.now) }
    ensures whole { result ≡ fits (tests_of form) (map string_bytes words.now) }
{
    count == words.len() && form.row().places.len() + 1 == words.len()
}

// How many words in front take their places in the form.
fn count_of(alloc: Global, form: Form, words: &[String]) -> Result<usize, NoMemory>
    ensures count { IfOk result (λ count. count ≡ count_taken (tests_of form) (map string_bytes words.now)) }
    ensures short { IfOk result (λ count. count ≤ length words.now) }
{
    let row = form.row();
    match words {
        [] => Ok(0),
        [name, others @ ..] => {
            if name.as_bytes() == row.name {
                Ok(count_in(alloc, row.places, others)? + 1)
            } else {
                Ok(0)
            }
        }
    }
}

// How many words in front take these places.
fn count_in(alloc: Global, places: &[Place], words: &[String]) -> Result<usize, NoMemory>
    ensures count { IfOk result (λ count. count ≡ count_taken (map takes places.now) (map string_bytes words.now)) }
    ensures short { IfOk result (λ count. count ≤ length words.now) }
{
    match places {
        [] => Ok(0),
        [place, places @ ..] => match words {
            [] => Ok(0),
            [word, words @ ..] => {
                if place.takes(alloc, word.as_str())? {
                    Ok(count_in(alloc, places, words)? + 1)
                } else {
                    Ok(0)
                }
            }
        },
    }
}

// The words are `connect` and an `https` address, whatever follows.
fn names_https(alloc: Global, words: &[String]) -> Result<bool, NoMemory>
    ensures https { IfOk result (λ is. is ≡ names_https (map string_bytes words.now)) }
{
    if word_at(words, 0) != "connect" {
        return Ok(false);
    }
    match Root::read(alloc, word_at(words, 1).as_bytes()) {
        Err(RootFault::Https) => Ok(true),
        Err(RootFault::NoMemory) => Err(NoMemory),
        Ok(_) | Err(RootFault::BadUrl) => Ok(false),
    }
}

// ---- the command of the words

// The command that words in the form ask for.
fn command_of<'a>(alloc: Global, form: Form, words: &'a [String]) -> Result<Command<'a>, NoMemory>
    requires fits { fits (tests_of form) (map string_bytes words.now) ≡ true }
    ensures asked { IfOk result (λ command. AsksFor command (map string_bytes words.now)) }
{
    match form {
        Form::Pipe => {
            let serving = plain_serving(alloc, words, DEFAULT_QUOTA)?;
            Ok(Command::Pipe { serving })
        }
        Form::PipeUnder => {
            let quota = number_at(words, 4);
            let serving = plain_serving(alloc, words, quota)?;
            Ok(Command::Pipe { serving })
        }
        Form::PipeAt => {
            let quota = number_at(words, 4);
            let secret = secret_at(words, 7);
            let base = word_at(words, 5);
            let salt = word_at(words, 6).as_bytes();
            let serving = serving_at(alloc, words, quota, base, salt, Some(secret))?;
            Ok(Command::Pipe { serving })
        }
        Form::Grant => {
            let scopes = scopes_at(alloc, words, 1)?;
            Ok(Command::Grant { scopes })
        }
        Form::Revoke => {
            let token = token_at(words, 1);
            Ok(Command::Revoke { token })
        }
        Form::Connect => {
            let root = root_at(alloc, words, 1)?;
            let token = bearer_at(alloc, words, 2)?;
            let scopes = scopes_at(alloc, words, 3)?;
            Ok(Command::Connect {
                root,
                token,
                scopes,
            })
        }
        Form::Put => {
            let document = document_at(alloc, words, 1)?;
            let kind = kind_at(alloc, words, 2)?;
            Ok(Command::Put { document, kind })
        }
        Form::Get => {
            let document = document_at(alloc, words, 1)?;
            Ok(Command::Get { document })
        }
        Form::Remove => {
            let document = document_at(alloc, words, 1)?;
            Ok(Command::Remove { document })
        }
        Form::List => {
            let folder = folder_at(alloc, words, 1)?;
            Ok(Command::List { folder })
        }
        Form::Status => Ok(Command::Status),
        Form::Conflicts => Ok(Command::Conflicts),
        Form::Resolve => {
            let n = number_at(words, 1);
            let how = how_at(words, 2);
            Ok(Command::Resolve { n, how })
        }
        Form::Help => Ok(Command::Help),
        Form::Version => Ok(Command::Version),
    }
}

// Whom the words `pipe USER TOKEN SCOPES ..` serve, under this quota.
fn plain_serving<'a>(
    alloc: Global,
    words: &'a [String],
    quota: u64,
) -> Result<Serving<'a>, NoMemory>
    requires user { is_user (word_at (map string_bytes words.now) 1) ≡ true }
    requires token { is_some (token_reading (word_at (map string_bytes words.now) 2)) ≡ true }
    ensures user { IfOk result (λ serving. serving.user.now ≡ word_at (map string_bytes words.now) 1) }
    ensures token { IfOk result (λ serving. token_reading (word_at (map string_bytes words.now) 2) ≡ Some serving.token) }
    ensures scopes { IfOk result (λ serving. scopes_reading (word_at (map string_bytes words.now) 3) ≡ Ok serving.scopes) }
    ensures setting { IfOk result (λ serving. setting_in serving ≡ plain_setting quota) }
{
    serving_at(alloc, words, quota, DEFAULT_BASE, b"", None)
}

// Whom they serve, under this quota, at this address, and where the user has this salt and this digest of a password.
fn serving_at<'a>(
    alloc: Global,
    words: &'a [String],
    quota: u64,
    base: &'a str,
    salt: &'a [u8],
    secret: Option<[u8; 32]>,
) -> Result<Serving<'a>, NoMemory>
    requires user { is_user (word_at (map string_bytes words.now) 1) ≡ true }
    requires token { is_some (token_reading (word_at (map string_bytes words.now) 2)) ≡ true }
    ensures user { IfOk result (λ serving. serving.user.now ≡ word_at (map string_bytes words.now) 1) }
    ensures token { IfOk result (λ serving. token_reading (word_at (map string_bytes words.now) 2) ≡ Some serving.token) }
    ensures scopes { IfOk result (λ serving. scopes_reading (word_at (map string_bytes words.now) 3) ≡ Ok serving.scopes) }
    ensures setting { IfOk result (λ serving. setting_in serving ≡ record { quota = quota; base = base.now; salt = salt.now; secret = secret }) }
{
    let scopes = scopes_at(alloc, words, 3)?;
    Ok(Serving {
        user: word_at(words, 1).as_bytes(),
        token: token_at(words, 2),
        scopes,
        quota,
        base,
        salt,
        secret,
    })
}

// The word at the index, and an empty one behind the last.
fn word_at(words: &[String], index: usize) -> &str
    ensures word { result.now ≡ word_at (map string_bytes words.now) index }
{
    if index < words.len() {
        words[index].as_str()
    } else {
        ""
    }
}

fn token_at(words: &[String], index: usize) -> Token
    requires token { is_some (token_reading (word_at (map string_bytes words.now) index)) ≡ true }
    ensures token { token_reading (word_at (map string_bytes words.now) index) ≡ Some result }
{
    Token::read(word_at(words, index).as_bytes()).unwrap()
}

fn number_at(words: &[String], index: usize) -> u64
    requires number { is_some (number_spelled (word_at (map string_bytes words.now) index)) ≡ true }
    ensures number { number_spelled (word_at (map string_bytes words.now) index) ≡ Some result }
{
    read_number(word_at(words, index)).unwrap()
}

fn secret_at(words: &[String], index: usize) -> [u8; 32]
    requires secret { is_some (secret_reading (word_at (map string_bytes words.now) index)) ≡ true }
    ensures secret { secret_reading (word_at (map string_bytes words.now) index) ≡ Some result }
{
    read_secret(word_at(words, index).as_bytes()).unwrap()
}

// The scopes of a word that spells some, so that nothing but memory can be wanting.
fn scopes_at(alloc: Global, words: &[String], index: usize) -> Result<Scopes, NoMemory>
    ensures scopes { IfOk result (λ scopes. scopes_reading (word_at (map string_bytes words.now) index) ≡ Ok scopes) }
{
    match Scopes::read(alloc, word_at(words, index).as_bytes()) {
        Ok(scopes) => Ok(scopes),
        Err(_) => Err(NoMemory),
    }
}

// The root of a word that names one, so that nothing but memory can be wanting. The same goes for the calls below.
fn root_at(alloc: Global, words: &[String], index: usize) -> Result<Root, NoMemory>
    ensures root { IfOk result (λ root. root_reading (word_at (map string_bytes words.now) index) ≡ Ok root) }
{
    match Root::read(alloc, word_at(words, index).as_bytes()) {
        Ok(root) => Ok(root),
        Err(_) => Err(NoMemory),
    }
}

fn bearer_at(alloc: Global, words: &[String], index: usize) -> Result<Bearer, NoMemory>
    ensures bearer { IfOk result (λ bearer. bearer ≡ word_at (map string_bytes words.now) index) }
    ensures test { IfOk result (λ bearer. is_bearer bearer ≡ true) }
{
    match Bearer::read(alloc, word_at(words, index).as_bytes())? {
        Some(bearer) => Ok(bearer),
        None => Err(NoMemory),
    }
}

fn kind_at(alloc: Global, words: &[String], index: usize) -> Result<Kind, NoMemory>
    ensures kind { IfOk result (λ kind. kind ≡ word_at (map string_bytes words.now) index) }
    ensures test { IfOk result (λ kind. is_kind kind ≡ true) }
{
    match Kind::read(alloc, word_at(words, index).as_bytes())? {
        Some(kind) => Ok(kind),
        None => Err(NoMemory),
    }
}

fn document_at(alloc: Global, words: &[String], index: usize) -> Result<Document, NoMemory>
    ensures path { IfOk result (λ document. path_spelled (word_at (map string_bytes words.now) index) ≡ Some document.path) }
{
    match read_path(alloc, word_at(words, index).as_bytes())? {
        Some(path) if !path.is_folder() => Ok(Document { path }),
        _ => Err(NoMemory),
    }
}

fn folder_at(alloc: Global, words: &[String], index: usize) -> Result<Folder, NoMemory>
    ensures path { IfOk result (λ folder. path_spelled (word_at (map string_bytes words.now) index) ≡ Some folder.path) }
{
    match read_path(alloc, word_at(words, index).as_bytes())? {
        Some(path) if path.is_folder() => Ok(Folder { path }),
        _ => Err(NoMemory),
    }
}

fn how_at(words: &[String], index: usize) -> Resolve
    requires how { is_some (how_spelled (word_at (map string_bytes words.now) index)) ≡ true }
    ensures how { how_spelled (word_at (map string_bytes words.now) index) ≡ Some result }
{
    read_how(word_at(words, index)).unwrap()
}
