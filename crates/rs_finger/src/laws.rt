//! Laws of discovery. Each function does nothing: its contract is the law.

ghost use Rattle.std.specs.Prelude.{◌≡◌, ◌++◌, ◌∷◌, List, ℕ, Some, Ok, IsUtf8, true, false, Err};
ghost use Rattle.std.specs.List.{list_all, list_any};
ghost use Rattle.std.specs.Str.{bytes_eq};
ghost use Rattle.rs_path.specs.Users.{is_user};
ghost use Rattle.rs_finger.specs.Accounts.{host_named};
ghost use Rattle.rs_finger.specs.Answers.{finger_answer};
ghost use Rattle.rs_finger.specs.Jrds.{account_uri, jrd_text, root_address, dialog_address};
ghost use Rattle.rs_finger.specs.JrdReadings.{links_with, jrd_reading};
ghost use Rattle.rs_finger.specs.Queries.{target_query};
ghost use Rattle.rs_finger.specs.declared.finger_fault.FingerFault.TheVariants.{NoLink};

/// A resource names a host behind a user exactly where it is the URI of this account.
pub fn account_laws()
    ensures named { (user host : List ℕ) → host_named user (account_uri user host) ≡ Some host }
    ensures only { (user host resource : List ℕ) → host_named user resource ≡ Some host
        → resource ≡ account_uri user host }
{}

/// An answer with its link is read as the addresses that were written, one without it has none, and the target that
/// asks for an account of this server is answered for that account.
pub fn finger_laws()
    ensures back { (base user host : List ℕ) → IsUtf8 base → is_user user ≡ true → IsUtf8 host
        → jrd_reading (jrd_text true base user host)
        ≡ Ok (links_with (root_address base user) (dialog_address base user)) }
    ensures none { (base user host : List ℕ) → IsUtf8 base → is_user user ≡ true → IsUtf8 host
        → jrd_reading (jrd_text false base user host) ≡ Err NoLink }
    ensures answered { (base host user : List ℕ) (users : List (List ℕ)) → IsUtf8 host
        → is_user user ≡ true
        → list_all is_user users ≡ true → list_any (bytes_eq user) users ≡ true
        → finger_answer base host users (target_query (user ++ 64 ∷ host)) ≡ Ok (jrd_text true base user host) }
{}
