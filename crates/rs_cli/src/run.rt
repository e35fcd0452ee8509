//! The top call.

ghost use Rattle.std.specs.Prelude.{◌≡◌, ℕ, List};
ghost use Rattle.rs_cli.specs.Commands.{ReadsCommand, rows_file_of};
ghost use Rattle.rs_face.specs.Courses.{course};
ghost use Rattle.rs_cli.specs.Notes.{code_of};
ghost use Rattle.rs_cli.specs.Runs.{Runs, Does};

use crate::command::{Command, RowsFile, WordFault};
use crate::granting::{grant, revoke};
use crate::note::Note;
use crate::printing::{print_done, print_line, print_shown};
use crate::serving::pipe;
use crate::status::Status;
use crate::texts::{help_text, version_text};
use rs_chain::ChainTree;
use rs_client::{conflicts, connect, document, listing, put, remove, resolve, summary};
use rs_face::{Entropy, Keeper, Sink, Source};
use std::alloc::Global;

/// Does what words were read as by `read_command`, over these objects of the outside.
///
/// `pipe USER TOKEN SCOPES [QUOTA [BASE SALT SECRET]]` opens the rows of the keeper, grants the token these scopes where it isn't granted, and
/// serves requests of the source with replies to the sink, where a grant by the user's password draws two words of the entropy
/// for its token. `grant SCOPES` grants a token of two words of the entropy and
/// prints it; `revoke TOKEN` takes its scopes away and prints `revoked`; `--help` and `--version` print a text.
///
/// `connect`, `put`, `get`, `rm`, `ls`, `status`, `conflicts` and `resolve` do what the call of this kind in `rs_client` does over
/// a journal's rows, and then print a word, or what they show; `put` reads the source to its end.
///
/// The status says how it ended; `Note` has what each code means. Refusals come in this order: words, rows, whether a client is
/// connected, source, the command's own, sink. A command but `pipe` that is refused hasn't touched the sink; where the sink itself
/// failed its effect stands.
pub fn run_here<S: Source, W: Sink, K: Keeper, E: Entropy>(
    alloc: Global,
    read: Result<Command<'_>, WordFault>,
    source: &mut S,
    sink: &mut W,
    keeper: &mut K,
    entropy: &mut E,
) -> Status
    ensures run { (words : List (List ℕ)) → ReadsCommand read.entry words → Runs (record {
      rows = course K.rows K.faults keeper.old keeper.new;
      words = course E.words E.faults entropy.old entropy.new;
      source = course S.left S.faults source.old source.new;
      sink = course W.written W.faults sink.old sink.new;
      wants = course W.written W.wants sink.old sink.new;
    }) words result.note }
    ensures code { result.code ≡ code_of result.note }
{
    run_read(alloc, read, source, sink, keeper, entropy).status()
}

/// Which file of rows the command that was read wants. Words that are in no form want none.
pub fn rows_file(read: &Result<Command<'_>, WordFault>) -> RowsFile
    ensures file { result ≡ rows_file_of read.now }
{
    match read {
        Ok(command) => command.rows_file(),
        Err(_) => RowsFile::None,
    }
}

fn run_read<S: Source, W: Sink, K: Keeper, E: Entropy>(
    alloc: Global,
    read: Result<Command<'_>, WordFault>,
    source: &mut S,
    sink: &mut W,
    keeper: &mut K,
    entropy: &mut E,
) -> Note
    ensures run { (words : List (List ℕ)) → ReadsCommand read.entry words → Runs (record {
      rows = course K.rows K.faults keeper.old keeper.new;
      words = course E.words E.faults entropy.old entropy.new;
      source = course S.left S.faults source.old source.new;
      sink = course W.written W.faults sink.old sink.new;
      wants = course W.written W.wants sink.old sink.new;
    }) words result }
{
    match read {
        Ok(command) => run_command(alloc, command, source, sink, keeper, entropy),
        Err(fault) => Note::from(fault),
    }
}

fn run_command<S: Source, W: Sink, K: Keeper, E: Entropy>(
    alloc: Global,
    command: Command<'_>,
    source: &mut S,
    sink: &mut W,
    keeper: &mut K,
    entropy: &mut E,
) -> Note
    ensures done { Does (record {
      rows = course K.rows K.faults keeper.old keeper.new;
      words = course E.words E.faults entropy.old entropy.new;
      source = course S.left S.faults source.old source.new;
      sink = course W.written W.faults sink.old sink.new;
      wants = course W.written W.wants sink.old sink.new;
    }) command.entry result }
{
    match command {
        Command::Pipe { serving } => {
            pipe::<ChainTree, S, W, K, E>(alloc, serving, source, sink, keeper, entropy)
        }
        Command::Grant { scopes } => {
            grant::<ChainTree, K, E, W>(alloc, scopes, keeper, entropy, sink)
        }
        Command::Revoke { token } => revoke::<ChainTree, K, W>(alloc, token, keeper, sink),
        Command::Connect {
            root,
            token,
            scopes,
        } => {
            let done = connect(alloc, keeper, &root, &token, &scopes);
            print_done(sink, done, b"connected")
        }
        Command::Put { document, kind } => {
            let done = put(alloc, keeper, source, &document.path, &kind);
            print_done(sink, done, b"put")
        }
        Command::Get { document: asked } => {
            let shown = document(alloc, keeper, &asked.path);
            print_shown(sink, shown)
        }
        Command::Remove { document } => {
            let done = remove(alloc, keeper, &document.path);
            print_done(sink, done, b"removed")
        }
        Command::List { folder } => {
            let shown = listing(alloc, keeper, &folder.path);
            print_shown(sink, shown)
        }
        Command::Status => {
            let shown = summary(alloc, keeper);
            print_shown(sink, shown)
        }
        Command::Conflicts => {
            let shown = conflicts(alloc, keeper);
            print_shown(sink, shown)
        }
        Command::Resolve { n, how } => {
            let done = resolve(alloc, keeper, n, how);
            print_done(sink, done, b"resolved")
        }
        Command::Help => print_line(sink, help_text()),
        Command::Version => print_line(sink, version_text()),
    }
}
