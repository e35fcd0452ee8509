//! What a plain tree was given for a Put.

ghost use Rattle.std.specs.Prelude.{◌≡◌, IfOk};

use rs_path::{Bytes, Kind, NoMemory, Path};

/// Copies of all that a Put brings; the tree has room for them.
#[derive(Debug, Drop)]
pub struct Room {
    pub(crate) path: Path,
    pub(crate) written: Path,
    pub(crate) kind: Kind,
    pub(crate) body: Bytes,
}

impl Room {
    pub(crate) fn of(path: &Path, kind: &Kind, body: &Bytes) -> Result<Room, NoMemory>
        ensures copies { IfOk result (λ room. (room.path ≡ path.now) × (room.written ≡ path.now) × (room.kind ≡ kind.now) × (room.body ≡ body.now)) }
    {
        Ok(Room {
            path: path.copy()?,
            written: path.copy()?,
            kind: kind.copy()?,
            body: body.copy()?,
        })
    }
}
