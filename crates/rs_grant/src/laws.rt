//! Laws of grants. Each function does nothing: its contract is the law.

ghost use Rattle.std.specs.Prelude.{◌≡◌, ◌++◌, List, [], ℕ, Option, Some, None, Ok, IsUtf8, IfSome, true, map};
ghost use Rattle.std.specs.List.{list_all, flat_map};
ghost use Rattle.form_urlencoded.specs.Form.{extend_pairs};
ghost use Rattle.url.specs.Parts.{Parts, serialize, IsValid};
ghost use Rattle.url.specs.Parser.{parse_url};
ghost use Rattle.rs_scope.specs.declared.scope.Scope.{Scope};
ghost use Rattle.rs_scope.specs.Scopes.{is_scopes};
ghost use Rattle.rs_form.specs.Fields.{form_fields};
ghost use Rattle.rs_grant.specs.declared.ask.Ask.{Ask};
ghost use Rattle.rs_grant.specs.declared.outcome.Outcome.{Outcome};
ghost use Rattle.rs_grant.specs.Asks.{is_redirect, ask_fields, ask_at, ask_reading, IsAskAt};
ghost use Rattle.rs_grant.specs.Consents.{choice_of, consent_reading, sent_fields};
ghost use Rattle.rs_grant.specs.Escapes.{is_piece, escape_byte, escaped_text, makes_no_markup};
ghost use Rattle.rs_grant.specs.Pages.{fixed_parts, page_parts, part_text, page_end, page_text};
ghost use Rattle.rs_grant.specs.Redirects.{state_fields, redirect_fields, redirect_text, at_fragment};

/// An escaped text is made of the five references and of bytes that are none of `&`, `<`, `>`, `"` and `'`: a `&` stands
/// in it only as the first of a reference, and the other four never.
pub fn escape_laws()
    ensures pieces { (text : List ℕ) → list_all is_piece (map escape_byte text) ≡ true }
    ensures plain { (text : List ℕ) → list_all makes_no_markup (escaped_text text) ≡ true }
{}

/// A page is fixed parts with escaped texts between them; which parts they are depends on the state being there alone.
pub fn page_laws()
    ensures parts { (user : List ℕ) (ask : Ask)
        → page_text user ask ≡ flat_map part_text (page_parts user ask) ++ page_end }
    ensures fixed { (user : List ℕ) (ask : Ask)
        → map (λ part. part.0) (page_parts user ask) ≡ fixed_parts ask.state }
{}

/// What asks for a grant is read as what was asked: the redirect address of a URL, the client, the scopes and the state.
pub fn ask_laws()
    ensures back { (url : Parts) (client : List ℕ) (scopes : List Scope) (state : Option (List ℕ)) → IsValid url
        → is_redirect url ≡ true → IsUtf8 client → is_scopes scopes ≡ true → IfSome state IsUtf8
        → ask_reading (extend_pairs [] (ask_fields (serialize url) client scopes (state_fields state)))
        ≡ ask_at url state (Ok (client, scopes)) }
{}

/// What the form of a consent page sends is read as the consent to what was shown: the same request, with the password
/// and the choice that the user gave.
pub fn consent_laws()
    ensures back { (url : Parts) (ask : Ask) (password choice : List ℕ) → IsAskAt url ask → is_scopes ask.scopes ≡ true
        → IsUtf8 password → IsUtf8 choice → consent_reading (extend_pairs [] (sent_fields ask password choice))
        ≡ Ok (ask, choice_of (Some choice) (Some password)) }
{}

/// A redirect is the address that was asked for with one fragment, and the fragment's fields are read back.
pub fn redirect_laws()
    ensures address { (url : Parts) (outcome : Outcome) (state : Option (List ℕ)) → IsValid url → is_redirect url ≡ true
        → parse_url None (redirect_text (serialize url) outcome state) ≡ Ok (at_fragment url (redirect_fields outcome state)) }
    ensures back { (outcome : Outcome) (state : Option (List ℕ)) → IfSome state IsUtf8
        → form_fields (extend_pairs [] (redirect_fields outcome state)) ≡ redirect_fields outcome state }
{}
