//! Laws of journals: the state is what the last events say, and no change vanishes. Each function does nothing: its
//! contract is the law.

ghost use Rattle.std.specs.Prelude.{◌≡◌, ℕ, ◌+◌, ◌≤◌, true, List, [], ◌∷◌, ◌++◌, Option, Some, None, IfSome};
ghost use Rattle.rs_path.specs.Paths.{Path};
ghost use Rattle.rs_talk.specs.declared.base.Base.{Base};
ghost use Rattle.rs_talk.specs.declared.change.Change.{Change};
ghost use Rattle.rs_cache.specs.declared.event.Event.{Event};
ghost use Rattle.rs_cache.specs.declared.event.Event.TheVariants.{Held, Conflict as ConflictMade};
ghost use Rattle.rs_cache.specs.States.{base_at, change_at, held_at, doubts_at, kept_at, record_in};
ghost use Rattle.rs_cache.specs.Effects.{change_by, conflict_at, after_event};
ghost use Rattle.rs_cache.specs.LastEvents.{none_such, says_base, said_base, makes_change, ends_change, moves_change, touches_change, doubts_with, says_kept, said_tag, says_below, moves_kept, resolves};
ghost use Rattle.rs_cache.specs.Journals.{state_of};
ghost use Rattle.rs_cache.specs.Fates.{HasFate};

/// The base of a path is what the last event that says it says, and none before the first.
pub fn base_laws()
    ensures last { (past rest : List Event) (event : Event) (path : Path) → says_base path (state_of past) event ≡ true
        → none_such (says_base path) (after_event event (state_of past)) rest ≡ true
        → base_at (state_of (past ++ event ∷ rest)) path ≡ said_base (state_of past) event }
    ensures none { (journal : List Event) (path : Path) → none_such (says_base path) (state_of []) journal ≡ true
        → base_at (state_of journal) path ≡ None }
{}

/// What waits at a path is the last change that an event made of it, unless an event ended one since. It is held by the
/// last status since it was made. In doubt are the changes that were sent since the base was last said.
pub fn change_laws()
    ensures made { (past rest : List Event) (event : Event) (path : Path) (change : Change)
        → change_by (state_of past) event ≡ Some (record { path = path; change = change })
        → none_such (moves_change path) (after_event event (state_of past)) rest ≡ true
        → change_at (state_of (past ++ event ∷ rest)) path ≡ Some change }
    ensures ended { (past rest : List Event) (event : Event) (path : Path) → ends_change path (state_of past) event ≡ true
        → none_such (makes_change path) (after_event event (state_of past)) rest ≡ true
        → change_at (state_of (past ++ event ∷ rest)) path ≡ None }
    ensures none { (journal : List Event) (path : Path) → none_such (makes_change path) (state_of []) journal ≡ true
        → change_at (state_of journal) path ≡ None }
    ensures held { (past rest : List Event) (path : Path) (status : ℕ) (change : Change)
        → change_at (state_of past) path ≡ Some change
        → none_such (touches_change path) (after_event (Held path status) (state_of past)) rest ≡ true
        → held_at (state_of (past ++ Held path status ∷ rest)) path ≡ Some status }
    ensures free { (past rest : List Event) (event : Event) (path : Path) → moves_change path (state_of past) event ≡ true
        → none_such (touches_change path) (after_event event (state_of past)) rest ≡ true
        → held_at (state_of (past ++ event ∷ rest)) path ≡ None }
    ensures doubts { (past rest : List Event) (event : Event) (path : Path) → says_base path (state_of past) event ≡ true
        → none_such (says_base path) (after_event event (state_of past)) rest ≡ true
        → doubts_at (state_of (past ++ event ∷ rest)) path ≡ doubts_with path [] (after_event event (state_of past)) rest }
    ensures first_doubts { (journal : List Event) (path : Path) → none_such (says_base path) (state_of []) journal ≡ true
        → doubts_at (state_of journal) path ≡ doubts_with path [] (state_of []) journal }
{}

/// A folder is kept with the tag of its last Settled, unless an Unsettled or a base below it came since.
pub fn kept_laws()
    ensures kept { (past rest : List Event) (event : Event) (folder : Path) → says_kept folder (state_of past) event ≡ true
        → none_such (moves_kept folder) (after_event event (state_of past)) rest ≡ true
        → kept_at (state_of (past ++ event ∷ rest)) folder ≡ said_tag event }
    ensures ended { (past rest : List Event) (event : Event) (folder : Path) → says_below folder (state_of past) event ≡ true
        → none_such (says_kept folder) (after_event event (state_of past)) rest ≡ true
        → kept_at (state_of (past ++ event ∷ rest)) folder ≡ None }
    ensures none { (journal : List Event) (folder : Path) → none_such (says_kept folder) (state_of []) journal ≡ true
        → kept_at (state_of journal) folder ≡ None }
{}

/// A conflict has the next number and stands until it is resolved; one that was resolved, or never made, is none.
pub fn record_laws()
    ensures made { (past rest : List Event) (path : Path) (remote : Option Base)
        → let conflict = conflict_at (state_of past) path remote in
        none_such (resolves conflict.n) (after_event (ConflictMade path remote) (state_of past)) rest ≡ true
        → record_in conflict.n (state_of (past ++ ConflictMade path remote ∷ rest)).records ≡ Some conflict }
    ensures resolved { (past rest : List Event) (event : Event) (n : ℕ) → resolves n (state_of past) event ≡ true
        → n ≤ (state_of past).made → record_in n (state_of (past ++ event ∷ rest)).records ≡ None }
    ensures numbers { (journal : List Event) (n : ℕ) → IfSome (record_in n (state_of journal).records) (λ r. n ≤ (state_of journal).made) }
{}

/// No change vanishes: the last change of each path waits, or an event of the journal ended it, and where that is a
/// conflict, its record has the change, and stands or was resolved.
pub fn fate_law()
    ensures fate { (past rest : List Event) (event : Event) (path : Path) (change : Change) → HasFate past event rest path change }
{}
