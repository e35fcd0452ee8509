//! What texts in rows stand for: paths, content types, entity tags, scopes.

ghost use Rattle.std.specs.Prelude.{◌≡◌, Ok, Some, IfOk};
ghost use Rattle.std.specs.Str.{bytes_eq};
ghost use Rattle.rs_scope.specs.Scopes.{scopes_text};
ghost use Rattle.rs_row.specs.RowFields.{path_meant, document_meant, unless_folder, kind_meant, tag_meant, optional_tag_meant, scopes_if_written, scopes_meant, ReadsMeant};

use crate::row_fault::RowFault;
use rs_path::{Kind, NoMemory, Path, PathFault, Tag};
use rs_scope::{ScopeFault, Scopes};
use std::alloc::Global;

/// The path with this plain text, which begins at the place.
pub fn read_path(alloc: Global, place: u32, text: &[u8]) -> Result<Path, RowFault>
    ensures { ReadsMeant result place (path_meant text.now) }
{
    match Path::read_plain(alloc, text) {
        Ok(path) => Ok(path),
        Err(PathFault::Bad { .. }) => Err(RowFault::Bad { place }),
        Err(PathFault::NoMemory) => Err(RowFault::NoMemory),
    }
}

/// The path of a document with this plain text, which begins at the place.
pub fn read_document(alloc: Global, place: u32, text: &[u8]) -> Result<Path, RowFault>
    ensures { ReadsMeant result place (document_meant text.now) }
{
    let path = read_path(alloc, place, text)?;
    of_document(place, path)
}

// The path, unless it is a folder's.
fn of_document(place: u32, path: Path) -> Result<Path, RowFault>
    ensures { ReadsMeant result place (unless_folder (Some path)) }
{
    if path.is_folder() {
        return Err(RowFault::Bad { place });
    }
    Ok(path)
}

/// The content type with this text, which begins at the place.
pub fn read_kind(alloc: Global, place: u32, text: &[u8]) -> Result<Kind, RowFault>
    ensures { ReadsMeant result place (kind_meant text.now) }
{
    match Kind::read(alloc, text)? {
        Some(kind) => Ok(kind),
        None => Err(RowFault::Bad { place }),
    }
}

/// The entity tag with this text, which begins at the place.
pub fn read_tag(alloc: Global, place: u32, text: &[u8]) -> Result<Tag, RowFault>
    ensures { ReadsMeant result place (tag_meant text.now) }
{
    match Tag::read(alloc, text)? {
        Some(tag) => Ok(tag),
        None => Err(RowFault::Bad { place }),
    }
}

/// The entity tag with this text, which begins at the place, or none where it is empty.
pub fn read_optional_tag(alloc: Global, place: u32, text: &[u8]) -> Result<Option<Tag>, RowFault>
    ensures { ReadsMeant result place (optional_tag_meant text.now) }
{
    if text.is_empty() {
        return Ok(None);
    }
    match Tag::read(alloc, text)? {
        Some(tag) => Ok(Some(tag)),
        None => Err(RowFault::Bad { place }),
    }
}

/// The scopes that are written as just this text, which begins at the place.
pub fn read_scopes(alloc: Global, place: u32, text: &[u8]) -> Result<Scopes, RowFault>
    ensures { ReadsMeant result place (scopes_meant text.now) }
{
    match Scopes::read(alloc, text) {
        Ok(scopes) => if_written(alloc, place, scopes, text),
        Err(ScopeFault::Bad { .. }) => Err(RowFault::Bad { place }),
        Err(ScopeFault::NoMemory) => Err(RowFault::NoMemory),
    }
}

// The scopes, if they are written as just this text.
fn if_written(alloc: Global, place: u32, scopes: Scopes, text: &[u8]) -> Result<Scopes, RowFault>
    ensures { ReadsMeant result place (scopes_if_written text.now (Ok scopes)) }
{
    if !is_written(alloc, &scopes, text)? {
        return Err(RowFault::Bad { place });
    }
    Ok(scopes)
}

fn is_written(alloc: Global, scopes: &Scopes, text: &[u8]) -> Result<bool, NoMemory>
    ensures { IfOk result (λ same. same ≡ bytes_eq (scopes_text scopes.now) text.now) }
{
    let mut written = Vec::new(alloc);
    scopes.write(&mut written)?;
    Ok(written.as_slice() == text)
}
