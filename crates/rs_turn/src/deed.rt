//! What is done in a turn.
use crate::held::Held;

/// What a caller does with the value of a lock while it has the turn.
pub trait Deed<V: Held> {
    ghost use Rattle.std.specs.Prelude.{◌≡◌, ◌≤◌, ℕ, Bool, true, List, Option};
    ghost use Rattle.rs_face.specs.Causes.{Rose};
    ghost use Rattle.rs_turn.specs.Entries.{Leaves};
    ghost use Rattle.rs_path.specs.declared.log_entry.LogEntry.{LogEntry};

    /// What the caller is told.
    type Answer;

    // The entry that the deed may add: a function of the deed, the value and the number of the seat.
    ghost adds: { Self → V → ℕ → Option V.What };

    // What the answer tells: of the deed before, the basis, the list before, the seat's number, the list after, the answer and the deed after.
    ghost shows: { Self → V.Basis → List (LogEntry V.What) → ℕ → List (LogEntry V.What) → Self.Answer → Self → Type 0 };

    // The answers that count as a fault of the seat.
    ghost is_failed: { Self.Answer → Bool };

    /// Is done in the seat's turn, on a value that stands for the history.
    ///
    /// It leaves a value that stands for the same list, or for it with the one entry that the deed
    /// may add. It keeps the basis and never lowers the count of faults, and the answer is a failed
    /// one only where that count rose, as far as a `u64` can.
    fn act(&mut self, value: &mut V, who: u64) -> Self::Answer
        requires { (h : List (LogEntry V.What)) × V.stands value.old h }
        ensures basis { V.basis value.new ≡ V.basis value.old }
        ensures list { (h : List (LogEntry V.What)) → V.stands value.old h → Leaves h who (adds self.old value.old who) (λ h'. V.stands value.new h' × shows self.old (V.basis value.old) h who h' result self.new) }
        ensures faults { V.faults value.old ≤ V.faults value.new }
        ensures failed { is_failed result ≡ true → Rose (V.faults value.old) (V.faults value.new) };

    /// Whether an answer is a failed one.
    fn failed(answer: &Self::Answer) -> bool
        ensures { result ≡ is_failed answer.now };
}
