//! A place in an ordered map, made before it is needed, so that what comes later can't fail; and values taken away.

ghost use Rattle.std.specs.Prelude.{◌≡◌, IfOk, OnErr, true};
ghost use Rattle.rs_cache.specs.Entries.{clear_at};
ghost use Rattle.rs_cache.specs.Spots.{with_spot, put_spot, undone, is_open, cleared, IsSpot};

use rs_path::{NoMemory, Path};
use std::collections::BTreeMap;

/// A path in a map, and the value that it is to have, unless it has it already because the path was new.
#[derive(Drop)]
pub(crate) struct Spot<X> {
    pub path: Path,
    pub value: Option<X>,
}

/// Makes a place for the value at the path: where the path is new it has the value from then on.
pub(crate) fn make_spot<X: Drop>(
    map: &mut BTreeMap<Path, X>,
    path: Path,
    value: X,
) -> Result<Spot<X>, NoMemory>
    ensures made { IfOk result (λ spot. map.new.entries ≡ with_spot path value map.old.entries) }
    ensures spot { IfOk result (λ spot. IsSpot spot path value map.old.entries) }
    ensures err { OnErr result (map.new.entries ≡ map.old.entries) }
{
    if map.contains_key(&path) {
        return Ok(Spot {
            path,
            value: Some(value),
        });
    }
    map.insert(path.copy()?, value)?;
    Ok(Spot { path, value: None })
}

/// Gives the path its value.
pub(crate) fn fill_spot<X: Drop>(map: &mut BTreeMap<Path, X>, spot: Spot<X>)
    requires there { is_open spot map.old.entries ≡ true }
    ensures filled { map.new.entries ≡ put_spot spot map.old.entries }
{
    let Spot { path, value } = spot;
    if let Some(value) = value {
        match map.insert(path, value) {
            Ok(_) => {}
            Err(_) => unreachable!(),
        }
    }
}

/// Takes the place away again.
pub(crate) fn undo_spot<X: Drop>(map: &mut BTreeMap<Path, X>, spot: Spot<X>)
    ensures undone { map.new.entries ≡ undone spot map.old.entries }
{
    if spot.value.is_none() {
        map.remove(&spot.path);
    }
}

/// Takes away the value at the path.
pub(crate) fn clear<X: Drop>(map: &mut BTreeMap<Path, X>, path: &Path)
    ensures cleared { map.new.entries ≡ clear_at path.now map.old.entries }
{
    map.len();
    map.remove(path);
}

/// Takes away the values at the paths.
pub(crate) fn clear_all<X: Drop>(map: &mut BTreeMap<Path, X>, paths: &[Path])
    ensures cleared { map.new.entries ≡ cleared paths.now map.old.entries }
{
    for path in paths {
        clear(map, path);
    }
}
