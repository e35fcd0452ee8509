//! Laws of commands. The function does nothing: its contract is the law.

ghost use Rattle.std.specs.Prelude.{◌≡◌, ℕ, List, None};
ghost use Rattle.rs_cli.specs.declared.command.Command.{Command};
ghost use Rattle.rs_cli.specs.declared.note.Note.{Note};
ghost use Rattle.rs_cli.specs.Commands.{AsksFor};
ghost use Rattle.rs_cli.specs.Completeness.{Allows, IsComplete};
ghost use Rattle.rs_cli.specs.Forms.{wrong_word};
ghost use Rattle.rs_cli.specs.Outsides.{Outside, IsFaultless};
ghost use Rattle.rs_cli.specs.Runs.{Runs};

/// Completeness: where the words are in a form, no count of faults rose, and nothing refuses what they ask for (the told rows
/// are opened, and the token may be granted or taken away, or the client that they make refuses nothing), the command succeeded
/// or memory ran out. A connection that was served may also have ended by what came in over it: after 1,000 replies, or at bytes
/// that are no request.
pub fn completeness_law()
    ensures complete { (out : Outside) (words : List (List ℕ)) (note : Note) → Runs out words note → wrong_word words ≡ None
        → IsFaultless out → ((command : Command) → AsksFor command words → Allows out command) → IsComplete words note }
{}
