//! Keys of items: a name, with `/` at the end of a folder's.

ghost use Rattle.std.specs.Prelude.{◌≡◌, IsTrue};
ghost use Rattle.std.specs.Ordering.{nat_cmp};
ghost use Rattle.std.specs.Cmp.Lexicographic.{slice_cmp};
ghost use Rattle.rs_path.specs.Names.{is_name};
ghost use Rattle.rs_path.specs.Keys.{key_text, key_cmp};

use std::cmp::Ordering;

/// The order of two keys, byte by byte. It takes no memory.
pub(crate) fn compare_keys(
    own: &[u8],
    own_folder: bool,
    theirs: &[u8],
    their_folder: bool,
) -> Ordering
    requires own { IsTrue (is_name own.now) }
    requires theirs { IsTrue (is_name theirs.now) }
    ensures { result ≡ slice_cmp nat_cmp (key_text own.now own_folder) (key_text theirs.now their_folder) }
{
    compare_bytes(own, own_folder, theirs, their_folder)
}

fn compare_bytes(own: &[u8], own_folder: bool, theirs: &[u8], their_folder: bool) -> Ordering
    ensures { result ≡ key_cmp own.now own_folder theirs.now their_folder }
{
    let shared = own.len().min(theirs.len());
    for i in 0..shared {
        if own[i] != theirs[i] {
            return own[i].cmp(&theirs[i]);
        }
    }
    if own.len() == theirs.len() {
        return own_folder.cmp(&their_folder);
    }
    if own.len() < theirs.len() {
        return if own_folder {
            b'/'.cmp(&theirs[shared])
        } else {
            Ordering::Less
        };
    }
    if their_folder {
        own[shared].cmp(&b'/')
    } else {
        Ordering::Greater
    }
}
