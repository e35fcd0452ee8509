//! Laws of `serve`. The function does nothing: its contract is the law.

ghost use Rattle.std.specs.Prelude.{◌≡◌, ℕ, true, List, Option};
ghost use Rattle.clap.specs.Words.{Text, takes};
ghost use Rattle.rs_work.specs.Connections.{course_of};
ghost use Rattle.rs_config.specs.ServeWordings.{serve_app};
ghost use Rattle.rs_cli.specs.declared.note.Note.{Note};
ghost use Rattle.rs_cli.specs.Completeness.{IsGood};
ghost use Rattle.rs_serve_cli.specs.ServeRuns.{Premises, RunsServe};
ghost use Rattle.rs_serve_cli.specs.ServeCompleteness.{IsConfigured, IsFaultlessServing, OpensAll};

use rs_face::{Entropy, Keeper, Listener};

/// Completeness: where the command takes the words, the file is a configuration, the rows of each user are told and are opened,
/// and no listener, no keeper and not the sink failed, `serve` succeeded or memory ran out.
pub fn serve_completeness_law<N: Listener, E: Entropy, K: Keeper>()
    ensures complete { (at : Premises N E K) (words : List Text) (text : List ℕ) (user : Option ℕ) (said : Note)
        → RunsServe (record {
          coming = N.coming;
          back = N.back;
          given = N.given;
          ends = N.ends;
          faults = N.faults;
          words = E.words;
          failures = E.faults;
          connection = course_of N.In.left N.In.faults N.Out.written N.Out.faults N.Out.wants;
        }) K.rows K.row_count K.faults at words text user said
        → takes serve_app words ≡ true → IsConfigured text → OpensAll K.rows at.keepers → IsFaultlessServing N.faults K.faults at → IsGood said }
{}
