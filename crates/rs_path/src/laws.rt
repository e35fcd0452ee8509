//! Laws of paths: what lies below what, and their orders. Each function does nothing: its contract is the law.

ghost use Rattle.std.specs.Prelude.{◌≡◌, ◌≤◌, ◌⊎◌, ◌||◌, ◌++◌, [], ◌∷◌, true, false, not, length, take, Some, is_some, nat_eq, IsTrue, ◌↔◌};
ghost use Rattle.std.specs.Cmp.{IsTotalOrder};
ghost use Rattle.std.specs.Cmp.Lexicographic.{slice_cmp};
ghost use Rattle.std.specs.Ordering.{nat_cmp, is_eq};
ghost use Rattle.std.specs.List.{list_all, list_any, starts_with};
ghost use Rattle.std.specs.Str.{is_utf8};
ghost use Rattle.rs_path.specs.Targets.{is_target_byte, target_text};
ghost use Rattle.rs_path.specs.declared.child.Child.{Child};
ghost use Rattle.rs_path.specs.Paths.{Path, is_nil, folder_at, is_path, same_path, plain_text, path_cmp};
ghost use Rattle.rs_path.specs.Below.{is_below, ancestors_of, parent_of};
ghost use Rattle.rs_path.specs.Children.{key_of, same_child, child_cmp, child_at, child_towards};
ghost use Rattle.rs_path.specs.Names.{is_name};

/// "Below" is a strict order, and of two folders above one path one is above the other.
pub fn below_laws()
    ensures transitive { (f g p : Path) → is_below f g ≡ true → is_below g p ≡ true → is_below f p ≡ true }
    ensures irreflexive { (p : Path) → is_below p p ≡ false }
    ensures root { (p : Path) → is_below (folder_at []) p ≡ not (is_nil p.names) }
    ensures one_above { (f g p : Path) → is_below f p ≡ true → is_below g p ≡ true
        → (same_path f g || is_below f g || is_below g f) ≡ true }
{}

/// The ancestors of a path are the folders that it is below, those of an ancestor first.
pub fn ancestor_laws()
    ensures members { (f p : Path) → list_any (same_path f) (ancestors_of p) ≡ is_below f p }
    ensures upwards { (f p : Path) → is_below f p ≡ true → take (length f.names) (ancestors_of p) ≡ ancestors_of f }
    ensures of_parent { (p f : Path) → parent_of p ≡ Some f → ancestors_of p ≡ ancestors_of f ++ f ∷ [] }
    ensures count { (p : Path) → length (ancestors_of p) ≡ length p.names }
{}

/// A path is a child of its parent, and where it is below a folder, it is a child of the folder or below one.
pub fn child_laws()
    ensures parent { (f : Path) (c : Child) → f.folder ≡ true → parent_of (child_at f c) ≡ Some f }
    ensures child { (p f : Path) → parent_of p ≡ Some f → (c : Child) × (child_at f c ≡ p) }
    ensures below { (f : Path) (c : Child) → is_below f (child_at f c) ≡ f.folder }
    ensures itself { (f : Path) (c : Child) → child_towards f (child_at f c) ≡ Some c }
    ensures towards { (f p : Path) → f.folder ≡ true → is_some (child_towards f p) ≡ is_below f p }
    ensures leads { (f p : Path) (c : Child) → child_towards f p ≡ Some c
        → (child_at f c ≡ p) ⊎ (is_below (child_at f c) p ≡ true) }
{}

/// The plain text of a path tells it from every other, and begins with that of each folder that it is or is
/// below. It is UTF-8 of at most 8,193 bytes, and a target has unreserved bytes, `%` and `/` alone.
pub fn text_laws()
    ensures apart { (p q : Path) → is_path p ≡ true → is_path q ≡ true → plain_text p ≡ plain_text q → p ≡ q }
    ensures prefix { (p f : Path) → is_path p ≡ true → is_path f ≡ true → f.folder ≡ true
        → starts_with nat_eq (plain_text p) (plain_text f) ≡ (same_path f p || is_below f p) }
    ensures short { (p : Path) → is_path p ≡ true → length (plain_text p) ≤ 8193 }
    ensures utf8 { (p : Path) → is_path p ≡ true → is_utf8 (plain_text p) ≡ true }
    ensures target { (p : Path) → is_path p ≡ true → list_all is_target_byte (target_text p) ≡ true }
{}

/// The order of paths is total, only equal paths tie, and it is that of their plain texts.
pub fn order_laws()
    ensures total { IsTotalOrder path_cmp }
    ensures ties { (p q : Path) → same_path p q ≡ is_eq (path_cmp p q) }
    ensures same { (p q : Path) → IsTrue (same_path p q) ↔ (p ≡ q) }
    ensures texts { (p q : Path) → is_path p ≡ true → is_path q ≡ true
        → path_cmp p q ≡ slice_cmp nat_cmp (plain_text p) (plain_text q) }
{}

/// The order of children is total, only equal children tie, and it is that of their keys.
pub fn child_order_laws()
    ensures total { IsTotalOrder child_cmp }
    ensures ties { (c d : Child) → same_child c d ≡ is_eq (child_cmp c d) }
    ensures same { (c d : Child) → IsTrue (same_child c d) ↔ (c ≡ d) }
    ensures keys { (c d : Child) → is_name c.name ≡ true → is_name d.name ≡ true
        → child_cmp c d ≡ slice_cmp nat_cmp (key_of c) (key_of d) }
{}
