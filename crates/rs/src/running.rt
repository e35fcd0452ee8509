//! What words do over the objects of the program.

ghost use Rattle.std.specs.Prelude.{◌≡◌, ℕ, List, Bool, true, Option, Ok, map, string_bytes, OnErr, IfOk};
ghost use Rattle.rs_face.specs.declared.keeper.KeepFault.TheVariants as KeepFault;
ghost use Rattle.rs_face.specs.Causes.{HasCause};
ghost use Rattle.rs_face.specs.Courses.{Course, course, IsUntouched};
ghost use Rattle.rs_cli.specs.declared.command.RowsFile.TheVariants as file;
ghost use Rattle.rs_cli.specs.Notes.{code_of};
ghost use Rattle.rs_cli.specs.Commands.{ReadsCommand, file_of};
ghost use Rattle.rs_cli.specs.Runs.{Runs};
ghost use Rattle.rs.specs.Shells.{WantRows, file_wanted, rows_for};

use rs_cli::{Command, Note, RowsFile, Status, read_command, run_here};
use rs_face::{Entropy, KeepFault, Keeper, NoFailKeeper, Sink, Source};
use std::alloc::Global;

/// The place where rows are kept, those of a user or those of a client's journal, opened where a command wants them.
pub trait RowsPlace {
    type Rows: Keeper + Drop;

    /// The rows that are kept there, oldest first, where the place tells them.
    ghost kept: { Self → Option (List (List ℕ)) };

    /// How many openings failed so far, and how many reads and appends of the rows that were opened.
    ghost faults: { Self → ℕ };

    /// Whether it was ever opened.
    ghost is_opened: { Self → Bool };

    /// Opens the rows that are kept, which are none where there is no file yet.
    fn open(&mut self) -> Result<Self::Rows, KeepFault>
        ensures rows { IfOk result (λ rows. Self.Rows.rows rows ≡ kept self.old) }
        ensures faults { IfOk result (λ rows. Self.Rows.faults rows ≡ faults self.old) }
        ensures err { OnErr result (kept self.new ≡ kept self.old) }
        ensures cause { HasCause (faults self.old) (faults self.new) KeepFault.Failed result }
        ensures opened { is_opened self.new ≡ true };

    /// Closes rows that were opened here. What they are then is kept.
    fn close(&mut self, rows: Self::Rows)
        ensures rows { kept self.new ≡ Self.Rows.rows rows }
        ensures faults { faults self.new ≡ Self.Rows.faults rows }
        ensures opened { is_opened self.new ≡ is_opened self.old };
}

/// Does what the words say over these objects: what `run_here` does, over the rows that are kept at the place that the command
/// wants, those of a user or those of a journal. Words that ask for no rows of a place leave it alone, so that no file is made.
pub fn run_words<S: Source, W: Sink, P: RowsPlace, E: Entropy>(
    alloc: Global,
    words: &[String],
    source: &mut S,
    sink: &mut W,
    user: &mut P,
    journal: &mut P,
    entropy: &mut E,
) -> Status
    ensures run { Runs (record {
      rows = rows_for (file_wanted (map string_bytes words.now)) (course P.kept P.faults user.old user.new) (course P.kept P.faults journal.old journal.new);
      words = course E.words E.faults entropy.old entropy.new;
      source = course S.left S.faults source.old source.new;
      sink = course W.written W.faults sink.old sink.new;
      wants = course W.written W.wants sink.old sink.new;
    }) (map string_bytes words.now) result.note }
    ensures code { result.code ≡ code_of result.note }
    ensures no_user { ¬ WantRows file.User (map string_bytes words.now) → user.new ≡ user.old }
    ensures no_journal { ¬ WantRows file.Journal (map string_bytes words.now) → journal.new ≡ journal.old }
{
    match read_command(alloc, words) {
        Ok(command) => run_command(alloc, command, source, sink, user, journal, entropy),
        Err(fault) => Note::from(fault).status(),
    }
}

fn run_command<S: Source, W: Sink, P: RowsPlace, E: Entropy>(
    alloc: Global,
    command: Command<'_>,
    source: &mut S,
    sink: &mut W,
    user: &mut P,
    journal: &mut P,
    entropy: &mut E,
) -> Status
    ensures run { (words : List (List ℕ)) → ReadsCommand (Ok command.entry) words → Runs (record {
      rows = rows_for (file_of command.entry) (course P.kept P.faults user.old user.new) (course P.kept P.faults journal.old journal.new);
      words = course E.words E.faults entropy.old entropy.new;
      source = course S.left S.faults source.old source.new;
      sink = course W.written W.faults sink.old sink.new;
      wants = course W.written W.wants sink.old sink.new;
    }) words result.note }
    ensures code { result.code ≡ code_of result.note }
    ensures no_user { (file_of command.entry ≡ file.User → ⊥) → user.new ≡ user.old }
    ensures no_journal { (file_of command.entry ≡ file.Journal → ⊥) → journal.new ≡ journal.old }
{
    match command.rows_file() {
        RowsFile::User => run_over_rows(alloc, command, source, sink, user, entropy),
        RowsFile::Journal => run_over_rows(alloc, command, source, sink, journal, entropy),
        RowsFile::None => run_without_rows(alloc, command, source, sink, entropy),
    }
}

fn run_over_rows<S: Source, W: Sink, P: RowsPlace, E: Entropy>(
    alloc: Global,
    command: Command<'_>,
    source: &mut S,
    sink: &mut W,
    place: &mut P,
    entropy: &mut E,
) -> Status
    requires rows { file_of command ≡ file.None → ⊥ }
    ensures run { (words : List (List ℕ)) → ReadsCommand (Ok command.entry) words → Runs (record {
      rows = course P.kept P.faults place.old place.new;
      words = course E.words E.faults entropy.old entropy.new;
      source = course S.left S.faults source.old source.new;
      sink = course W.written W.faults sink.old sink.new;
      wants = course W.written W.wants sink.old sink.new;
    }) words result.note }
    ensures code { result.code ≡ code_of result.note }
{
    match place.open() {
        Ok(mut keeper) => {
            let status = run_here(alloc, Ok(command), source, sink, &mut keeper, entropy);
            place.close(keeper);
            status
        }
        Err(KeepFault::Failed) => Note::KeeperFailed.status(),
        Err(KeepFault::NoMemory) => Note::NoMemory.status(),
    }
}

// A command that wants no rows is done over none.
fn run_without_rows<S: Source, W: Sink, E: Entropy>(
    alloc: Global,
    command: Command<'_>,
    source: &mut S,
    sink: &mut W,
    entropy: &mut E,
) -> Status
    requires none { file_of command ≡ file.None }
    ensures run { (words : List (List ℕ)) (rows : Course (List (List ℕ))) → ReadsCommand (Ok command.entry) words → IsUntouched rows → Runs (record {
      rows = rows;
      words = course E.words E.faults entropy.old entropy.new;
      source = course S.left S.faults source.old source.new;
      sink = course W.written W.faults sink.old sink.new;
      wants = course W.written W.wants sink.old sink.new;
    }) words result.note }
    ensures code { result.code ≡ code_of result.note }
{
    let mut none = NoFailKeeper::new(Vec::new(alloc));
    run_here(alloc, Ok(command), source, sink, &mut none, entropy)
}
