//! What a lock holds.

/// A value that a `TurnLock` can hold: it stands for a list of entries, of which it need not keep a
/// copy.
///
/// The `who` of an entry is the number of the seat whose turn added it. Those that the value had
/// when its lock was made have 0.
pub trait Held: Drop {
    ghost use Rattle.std.specs.Prelude.{◌≡◌, ℕ, List, length};
    ghost use Rattle.rs_path.specs.declared.log_entry.LogEntry.{LogEntry};

    /// What an entry says.
    type What;

    /// What stays the same for as long as the value is held.
    type Basis;

    // The lists that a value stands for.
    ghost stands: { Self → List (LogEntry Self.What) → Type 0 };

    // What no deed changes.
    ghost basis: { Self → Self.Basis };

    // How much has failed in the value so far. No deed lowers it.
    ghost faults: { Self → ℕ };

    /// The length of the list, which a `u64` has room for.
    fn len(&self) -> u64
        ensures { (h : List (LogEntry Self.What)) → stands self.now h → result ≡ length h };
}
