//! Laws of the rows of events. The function does nothing: its contract is the law.

ghost use Rattle.std.specs.Prelude.{◌≡◌, List, ℕ, Ok, Err, Some, ◌∷◌, ◌++◌, length};
ghost use Rattle.rs_row.specs.declared.row_fault.RowFault.TheVariants.{Bad};
ghost use Rattle.rs_cache.specs.declared.event.Event.{Event};
ghost use Rattle.rs_cache.specs.EventParts.{HasEventParts};
ghost use Rattle.rs_cache.specs.EventReadings.{event_reading};
ghost use Rattle.rs_cache.specs.EventRows.{event_row};

/// An event has one row and a row one event; a row with bytes behind it is refused at the first of them.
pub fn event_row_laws()
    ensures back { (event : Event) → HasEventParts event → event_reading (event_row event) ≡ Ok (Some event) }
    ensures same { (event other : Event) → HasEventParts event → HasEventParts other → event_row event ≡ event_row other → event ≡ other }
    ensures surplus { (event : Event) (byte : ℕ) (more : List ℕ) → HasEventParts event
        → event_reading (event_row event ++ byte ∷ more) ≡ Err (Bad (length (event_row event))) }
{}
