//! Paths of documents and folders.

ghost use Rattle.std.specs.Prelude.{◌≡◌, ◌<◌, ◌≤◌, ◌++◌, ◌||◌, true, false, length, Ok, IfOk, OnOk, OnErr, IsTrue, map, nat_eq};
ghost use Rattle.std.specs.List.{list_all, starts_with};
ghost use Rattle.rs_path.specs.Paths.{is_path, folder_at, same_path, plain_text, text_of};
ghost use Rattle.rs_path.specs.Below.{is_below, parent_at, parent_of, proper_fronts, ancestors_of};
ghost use Rattle.rs_path.specs.Children.{child_at};
ghost use Rattle.rs_path.specs.Targets.{is_target_byte, target_text};
ghost use Rattle.rs_path.specs.Readings.{plain_reading, target_reading, Reads};

use crate::name::Name;
use crate::no_memory::NoMemory;
use crate::path_fault::PathFault;
use crate::reading::read_path;
use crate::spelling::Spelling;
use crate::target::target_of;
use std::alloc::Global;
use std::cmp::Ordering;
use std::marker::Model;

/// The path of a document or a folder: 0 to 32 names and whether it is a folder.
///
/// The path with no names is the folder `/`. Its plain text is `/` and the names joined by `/`, with
/// `/` at the end of a folder other than `/` (draft-dejong-remotestorage, section 4). A contract sees
/// a path as the list of its names and the flag.
#[derive(Debug, Drop)]
pub struct Path {
    names: Vec<Name>,
    folder: bool,
    plain: Vec<u8>,
}

impl Model for Path {
    ghost use Rattle.rs_path.specs.Paths.{Path};

    ghost Value = { Path };

    ghost use Rattle.std.specs.Prelude.{◌≡◌, IsTrue};
    ghost use Rattle.rs_path.specs.Paths.{is_path, text_of};

    ghost view = { λ p. record { names = p.names.items; folder = p.folder } };

    ghost invariant = { λ p. record {
      path : IsTrue (is_path (record { names = p.names.items; folder = p.folder }));
      text : p.plain.items ≡ text_of p.names.items p.folder;
    } };
}

impl Path {
    /// The path that a text with escapes stands for, as it stands in the target of a request.
    ///
    /// The text is cut at each `/` (RFC 3986, section 3.3). What is refused first, and at which place, says
    /// `target_reading`: a 33rd segment, an empty one, a `%` without two hexadecimal digits, and of the
    /// unescaped bytes a slash, a zero, bytes that aren't UTF-8, `.` and `..`, and more than 255.
    pub fn read(alloc: Global, text: &[u8]) -> Result<Path, PathFault>
        ensures read { Reads result (target_reading text.now) }
    {
        read_path(alloc, Spelling::Escaped, text)
    }

    /// The path that a text without escapes stands for.
    ///
    /// As `read`, but that each segment is its name's bytes.
    pub fn read_plain(alloc: Global, text: &[u8]) -> Result<Path, PathFault>
        ensures read { Reads result (plain_reading text.now) }
        ensures canonical { IfOk result (λ path. plain_text path ≡ text.now) }
    {
        read_path(alloc, Spelling::Plain, text)
    }

    // The path of these names.
    pub(crate) fn of(names: Vec<Name>, folder: bool) -> Result<Path, NoMemory>
        requires { IsTrue (is_path (record { names = names.items; folder = folder })) }
        ensures path { IfOk result (λ path. path ≡ record { names = names.items; folder = folder }) }
    {
        let plain = text_of(names.as_slice(), folder, *names.allocator())?;
        Ok(Path {
            names,
            folder,
            plain,
        })
    }

    /// Whether the path is a folder's.
    pub fn is_folder(&self) -> bool
        ensures folder { result ≡ self.now.folder }
        ensures named { result ≡ false → 0 < length self.now.names }
    {
        self.folder
    }

    /// The number of its names.
    pub fn depth(&self) -> u32
        ensures depth { result ≡ length self.now.names }
        ensures few { result ≤ 32 }
    {
        self.names.len() as u32
    }

    /// Its names, from the root down.
    pub fn names(&self) -> &[Name]
        ensures names { result.now ≡ self.now.names }
        ensures path { IsTrue (is_path self.now) }
    {
        self.names.as_slice()
    }

    /// The folder that it is in, or None for `/`.
    pub fn parent(&self) -> Result<Option<Path>, NoMemory>
        ensures parent { IfOk result (λ parent. parent ≡ parent_of self.now) }
    {
        parent_at(self.names.as_slice(), *self.names.allocator())
    }

    /// The folders that it is below, from `/` down.
    pub fn ancestors(&self) -> Result<Vec<Path>, NoMemory>
        ensures ancestors { IfOk result (λ ancestors. ancestors.items ≡ ancestors_of self.now) }
    {
        ancestors_at(self.names.as_slice(), *self.names.allocator())
    }

    /// Whether its plain text begins with the other's: of a folder, whether it is that folder or below it.
    pub fn starts_with(&self, folder: &Path) -> bool
        ensures prefix { result ≡ starts_with nat_eq (plain_text self.now) (plain_text folder.now) }
        ensures below { folder.now.folder ≡ true
            → result ≡ (same_path folder.now self.now || is_below folder.now self.now) }
    {
        self.plain.starts_with(folder.plain.as_slice())
    }

    /// The path in this folder with this name.
    pub fn child(&self, name: &Name, folder: bool) -> Result<Path, NoMemory>
        requires folder { IsTrue self.now.folder }
        requires room { length self.now.names < 32 }
        ensures child { IfOk result (λ path. path ≡ child_at self.now (record { name = name.now; folder = folder })) }
    {
        let mut names = copy_of(self.names.as_slice(), *self.names.allocator())?;
        names.push(name.copy()?)?;
        Path::of(names, folder)
    }

    /// An equal path, from the same allocator.
    pub fn copy(&self) -> Result<Path, NoMemory>
        ensures same { IfOk result (λ copied. copied ≡ self.now) }
    {
        let names = copy_of(self.names.as_slice(), *self.names.allocator())?;
        let plain = self.plain.clone()?;
        Ok(Path {
            names,
            folder: self.folder,
            plain,
        })
    }

    /// Appends the path as it stands in the target of a request: every byte of its names escaped but
    /// letters, digits, `-`, `.`, `_` and `~`, with upper-case digits (RFC 3986, section 2.1).
    pub fn write_target(&self, out: &mut Vec<u8>) -> Result<(), NoMemory>
        ensures ok { OnOk result (out.new.items ≡ out.old.items ++ target_text self.now) }
        ensures err { OnErr result (out.new.items ≡ out.old.items) }
        ensures back { target_reading (target_text self.now) ≡ Ok self.now }
        ensures bytes { IsTrue (list_all is_target_byte (target_text self.now)) }
    {
        let text = target_of(*self.names.allocator(), self.names.as_slice(), self.folder)?;
        out.extend_from_slice(text.as_bytes())?;
        Ok(())
    }

    /// Appends the path's plain text.
    pub fn write_plain(&self, out: &mut Vec<u8>) -> Result<(), NoMemory>
        ensures ok { OnOk result (out.new.items ≡ out.old.items ++ plain_text self.now) }
        ensures err { OnErr result (out.new.items ≡ out.old.items) }
        ensures back { plain_reading (plain_text self.now) ≡ Ok self.now }
        ensures short { length (plain_text self.now) ≤ 8193 }
    {
        out.extend_from_slice(self.plain.as_slice())?;
        Ok(())
    }
}

impl PartialEq for Path {
    ghost use Rattle.rs_path.specs.PathOrder.{same_path_equiv};
    ghost use Rattle.std.specs.Cmp.{partial_equiv_from_equiv};

    ghost eq = { same_path };

    ghost laws = { partial_equiv_from_equiv same_path_equiv };

    fn eq(&self, other: &Path) -> bool {
        self.plain.as_slice() == other.plain.as_slice()
    }
}

impl Eq for Path {
    ghost use Rattle.rs_path.specs.PathOrder.{same_path_equiv};

    ghost laws = { same_path_equiv };
}

impl PartialOrd for Path {
    ghost use Rattle.std.specs.Ordering.{as_partial_cmp};
    ghost use Rattle.rs_path.specs.Paths.{path_cmp};
    ghost use Rattle.rs_path.specs.PathOrder.{path_order};

    ghost partial_cmp = { as_partial_cmp path_cmp };

    ghost laws = { path_order };

    fn partial_cmp(&self, other: &Path) -> Option<Ordering> {
        Some(self.cmp(other))
    }
}

/// The order of the plain texts, byte by byte.
impl Ord for Path {
    ghost use Rattle.std.specs.Prelude.{refl};
    ghost use Rattle.rs_path.specs.Paths.{path_cmp};
    ghost use Rattle.rs_path.specs.PathOrder.{path_cmp_total, path_ties};

    ghost cmp = { path_cmp };

    ghost total = { path_cmp_total };

    ghost matches_partial_cmp = { λ p q. refl };

    ghost matches_eq = { path_ties };

    fn cmp(&self, other: &Path) -> Ordering {
        self.plain.as_slice().cmp(other.plain.as_slice())
    }
}

fn folder_at(names: &[Name], alloc: Global) -> Result<Path, NoMemory>
    requires { IsTrue (is_path (folder_at names.now)) }
    ensures { IfOk result (λ path. path ≡ folder_at names.now) }
{
    Path::of(copy_of(names, alloc)?, true)
}

fn parent_at(names: &[Name], alloc: Global) -> Result<Option<Path>, NoMemory>
    requires { IsTrue (is_path (folder_at names.now)) }
    ensures { IfOk result (λ parent. parent ≡ parent_at names.now) }
{
    match names {
        [] => Ok(None),
        [front @ .., _] => Ok(Some(folder_at(front, alloc)?)),
    }
}

fn ancestors_at(names: &[Name], alloc: Global) -> Result<Vec<Path>, NoMemory>
    requires { IsTrue (is_path (folder_at names.now)) }
    ensures { IfOk result (λ ancestors. ancestors.items ≡ map folder_at (proper_fronts names.now)) }
{
    let mut ancestors = Vec::new(alloc);
    for depth in 0..names.len() {
        ancestors.push(folder_at(&names[..depth], alloc)?)?;
    }
    Ok(ancestors)
}

fn copy_of(names: &[Name], alloc: Global) -> Result<Vec<Name>, NoMemory>
    ensures { IfOk result (λ copied. copied.items ≡ names.now) }
{
    let mut copied = Vec::with_capacity(alloc, names.len())?;
    for name in names {
        copied.push(name.copy()?)?;
    }
    Ok(copied)
}

fn text_of(names: &[Name], folder: bool, alloc: Global) -> Result<Vec<u8>, NoMemory>
    ensures text { IfOk result (λ text. text.items ≡ text_of names.now folder) }
{
    let mut text = Vec::new(alloc);
    for name in names {
        text.push(b'/')?;
        text.extend_from_slice(name.as_slice())?;
    }
    if folder {
        text.push(b'/')?;
    }
    Ok(text)
}
