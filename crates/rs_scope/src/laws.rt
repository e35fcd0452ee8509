//! Laws of what scopes reach. Each function does nothing: its contract is the law.

ghost use Rattle.std.specs.Prelude.{◌≡◌, List, ℕ, Bool, true, false, ◌&&◌, [], ◌∷◌};
ghost use Rattle.std.specs.List.{list_any};
ghost use Rattle.std.specs.Str.{bytes_eq};
ghost use Rattle.rs_path.specs.Paths.{Path, is_path, same_path};
ghost use Rattle.rs_scope.specs.declared.method.Method.{Method};
ghost use Rattle.rs_scope.specs.declared.scope.Scope.{Scope};
ghost use Rattle.rs_scope.specs.declared.scope.Reach.TheVariants.{Module};
ghost use Rattle.rs_scope.specs.Modules.{is_module};
ghost use Rattle.rs_scope.specs.Reach.{is_within, is_reading, covers, reach_of, is_free_read};
ghost use Rattle.rs_scope.specs.Roots.{roots_of, is_star, are_ascending, is_root_by};

/// No module's path is another's; whoever may write may read; what needs no token is read.
pub fn reach_laws()
    ensures apart { (m n : List ℕ) (p : Path) → is_module m ≡ true → is_module n ≡ true → bytes_eq m n ≡ false
        → covers (Module m) p ≡ true → covers (Module n) p ≡ false }
    ensures reading { (s : List Scope) (o : Method) (p : Path) → reach_of s o p ≡ true → reach_of s Method.Get p ≡ true }
    ensures by_kind { (s : List Scope) (o q : Method) (p : Path) → is_reading o ≡ is_reading q → reach_of s o p ≡ reach_of s q p }
    ensures free { (o : Method) (p : Path) → is_free_read o p ≡ true → (is_reading o ≡ true) × (p.folder ≡ false) }
{}

/// The roots hold just what the scopes let read, and are those of each scope, each once and in order.
pub fn root_laws()
    ensures held { (s : List Scope) (p : Path) → is_path p ≡ true → list_any (λ root. is_within root p) (roots_of s) ≡ reach_of s Method.Get p }
    ensures members { (s : List Scope) (p : Path) → list_any is_star s ≡ false
        → list_any (same_path p) (roots_of s) ≡ list_any (λ scope. is_root_by scope.reach p) s }
    ensures ascending { (s : List Scope) → are_ascending (roots_of s) ≡ true }
{}
