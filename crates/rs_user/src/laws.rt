//! Laws of turns. The function does nothing: its contract is the law.

ghost use Rattle.std.specs.Prelude.{◌≡◌, ℕ, ◌+◌, true, false, List, Option, Some};
ghost use Rattle.rs_path.specs.Paths.{Path};
ghost use Rattle.rs_scope.specs.declared.method.Method.TheVariants.{Put as PutMethod, Delete as DeleteMethod};
ghost use Rattle.rs_record.specs.declared.records.Record.{Record};
ghost use Rattle.rs_record.specs.declared.records.Record.TheVariants.{Put as PutRecord, Remove as RemoveRecord};
ghost use Rattle.rs_rules.specs.declared.request.Request.{Request};
ghost use Rattle.rs_rules.specs.Histories.{History, len, with_entries};
ghost use Rattle.rs_rules.specs.Requests.{is_within_limit};
ghost use Rattle.rs_rules.specs.Answers.{taken, entry_of};
ghost use Rattle.rs_rules.specs.Lawful.{IsLawful};
ghost use Rattle.rs_rules.specs.Laws.{IsVersionStep, HasReach};
ghost use Rattle.rs_user.specs.Preparations.{record_to_keep};

use rs_rules::{lawful_laws, taken_laws, version_law};

/// What a turn that takes a Put or a Remove does to the version of every path, and that the token which wrote is granted
/// with scopes that reach the method and the path. What a turn takes is the record for which a row is made before it.
pub fn turn_laws()
    ensures put { (h : History) (quota who : ℕ) (r : Request) (path : Path) (kind body : List ℕ) (writer : Option (List ℕ))
        → is_within_limit r ≡ true → taken h quota r ≡ Some (PutRecord path kind body writer)
        → IsVersionStep h (with_entries h (entry_of who (taken h quota r))) (len h + 1) path true }
    ensures remove { (h : History) (quota who : ℕ) (r : Request) (path : Path) (writer : Option (List ℕ)) → IsLawful h
        → is_within_limit r ≡ true → taken h quota r ≡ Some (RemoveRecord path writer)
        → IsVersionStep h (with_entries h (entry_of who (taken h quota r))) (len h + 1) path false }
    ensures reach_put { (h : History) (quota : ℕ) (r : Request) (path : Path) (kind body : List ℕ) (writer : Option (List ℕ))
        → taken h quota r ≡ Some (PutRecord path kind body writer) → HasReach h writer PutMethod path }
    ensures reach_remove { (h : History) (quota : ℕ) (r : Request) (path : Path) (writer : Option (List ℕ))
        → taken h quota r ≡ Some (RemoveRecord path writer) → HasReach h writer DeleteMethod path }
    ensures row { (h : History) (quota : ℕ) (r : Request) (what : Record) → IsLawful h → is_within_limit r ≡ true
        → taken h quota r ≡ Some what → record_to_keep r ≡ Some what }
{
    version_law();
    taken_laws();
    lawful_laws();
}
