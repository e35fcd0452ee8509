//! The documents of the view, one after another, in the order of their paths.

ghost use Rattle.std.specs.Prelude.{◌≡◌, ◌&&◌, true, find, option_copied};
ghost use Rattle.std.specs.declared.cmp.Ordering.TheVariants.{Less};
ghost use Rattle.std.specs.List.Sorted.{IsStrictlySortedBy};
ghost use Rattle.std.specs.Map.{keys_of};
ghost use Rattle.std.specs.Range.Bound.{bound_map};
ghost use Rattle.rs_path.specs.Paths.{Path as PathValue, path_cmp};
ghost use Rattle.rs_cache.specs.Firsts.{lesser_path, is_shown_below, is_started, first_shown};

use crate::client::Client;
use rs_path::Path;
use std::ops::Bound;

impl Client {
    /// The first path of the view below the folder, from the start on. It takes no memory.
    pub(crate) fn first_shown(&self, folder: &Path, start: Bound<&Path>) -> Option<&Path>
        requires folder { folder.now.folder ≡ true }
        requires behind { (path : PathValue) → is_started (bound_map (λ p. p.now) start) path ≡ true → path_cmp folder.now path ≡ Less }
        ensures first { option_copied result ≡ first_shown self.now folder.now (bound_map (λ p. p.now) start.entry) }
    {
        lesser(
            self.first_base(folder, start),
            self.first_change(folder, start),
        )
    }

    // The first of the paths with a base.
    fn first_base(&self, folder: &Path, start: Bound<&Path>) -> Option<&Path>
        requires folder { folder.now.folder ≡ true }
        requires behind { (path : PathValue) → is_started (bound_map (λ p. p.now) start) path ≡ true → path_cmp folder.now path ≡ Less }
        ensures first { option_copied result
            ≡ find (λ path. is_started (bound_map (λ p. p.now) start.entry) path && is_shown_below self.now folder.now path) (keys_of self.now.base) }
        ensures ordered { IsStrictlySortedBy path_cmp (keys_of self.now.base) }
    {
        for (path, _) in self.base.range((start, Bound::Unbounded)) {
            if !path.starts_with(folder) {
                return None;
            }
            if self.is_viewed(path) {
                return Some(path);
            }
        }
        None
    }

    // The first of the paths where a change waits.
    fn first_change(&self, folder: &Path, start: Bound<&Path>) -> Option<&Path>
        requires folder { folder.now.folder ≡ true }
        requires behind { (path : PathValue) → is_started (bound_map (λ p. p.now) start) path ≡ true → path_cmp folder.now path ≡ Less }
        ensures first { option_copied result
            ≡ find (λ path. is_started (bound_map (λ p. p.now) start.entry) path && is_shown_below self.now folder.now path) (keys_of self.now.pending) }
        ensures ordered { IsStrictlySortedBy path_cmp (keys_of self.now.pending) }
    {
        for (path, _) in self.pending.range((start, Bound::Unbounded)) {
            if !path.starts_with(folder) {
                return None;
            }
            if self.is_viewed(path) {
                return Some(path);
            }
        }
        None
    }
}

// The lesser of two paths, where there are any.
fn lesser<'a>(one: Option<&'a Path>, other: Option<&'a Path>) -> Option<&'a Path>
    ensures lesser { option_copied result ≡ lesser_path (option_copied one.entry) (option_copied other.entry) }
{
    match (one, other) {
        (Some(one), Some(other)) => { if one < other { Some(one) } else { Some(other) } }
        (Some(one), None) => Some(one),
        (None, other) => other,
    }
}
