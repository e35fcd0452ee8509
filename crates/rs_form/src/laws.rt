//! Laws of forms. Each function does nothing: its contract is the law.

ghost use Rattle.std.specs.Prelude.{◌≡◌, ℕ, List, [], All};
ghost use Rattle.form_urlencoded.specs.Form.{extend_pairs};
ghost use Rattle.rs_form.specs.Fields.{IsTextField, form_fields};

/// Fields that were written are read back.
pub fn form_laws()
    ensures back { (fields : List (List ℕ × List ℕ)) → All IsTextField fields
        → form_fields (extend_pairs [] fields) ≡ fields }
{}
