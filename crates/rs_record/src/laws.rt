//! Laws of rows. Each function does nothing: its contract is the law.

ghost use Rattle.std.specs.Prelude.{◌≡◌, List, ℕ, Ok, Err, true, [], ◌∷◌, ◌++◌, length};
ghost use Rattle.rs_record.specs.declared.records.Record.{Record};
ghost use Rattle.rs_row.specs.declared.row_fault.RowFault.TheVariants.{Bad};
ghost use Rattle.rs_record.specs.Records.{is_record};
ghost use Rattle.rs_record.specs.Rows.{spelling};
ghost use Rattle.rs_record.specs.RowReadings.{record_reading};

/// A record has one row and a row one record; no row is the beginning of another's; a row with bytes behind it is
/// refused at the first of them.
pub fn row_laws()
    ensures back { (it : Record) → is_record it ≡ true → record_reading (spelling it) ≡ Ok it }
    ensures same { (it other : Record) → is_record it ≡ true → is_record other ≡ true → spelling it ≡ spelling other → it ≡ other }
    ensures no_front { (it other : Record) (more : List ℕ) → is_record it ≡ true → is_record other ≡ true
        → spelling it ++ more ≡ spelling other → more ≡ [] }
    ensures surplus { (it : Record) (byte : ℕ) (more : List ℕ) → is_record it ≡ true
        → record_reading (spelling it ++ byte ∷ more) ≡ Err (Bad (length (spelling it))) }
{}
