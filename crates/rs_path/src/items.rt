//! The items of a folder, in order.

ghost use Rattle.std.specs.Prelude.{◌≡◌, [], ◌∷◌, ◌++◌, All, IfOk, OnOk, OnErr, IsTrue};
ghost use Rattle.std.specs.List.{list_all};
ghost use Rattle.rs_path.specs.Items.{comes_before, is_entry, is_item, is_ascending};

use crate::entry::Entry;
use crate::no_memory::NoMemory;
use std::alloc::Global;
use std::marker::Model;

/// The items of a folder, in strict byte order of their keys; a folder's key is its name and `/`.
///
/// A folder's entry has neither kind nor length. A contract sees items as the list of the entries.
#[derive(Debug, Drop)]
pub struct Items {
    list: Vec<Entry>,
}

impl Model for Items {
    ghost use Rattle.std.specs.Prelude.{List};
    ghost use Rattle.rs_path.specs.declared.entry.Entry.{Entry};

    ghost Value = { List Entry };

    ghost use Rattle.std.specs.Prelude.{IsTrue};
    ghost use Rattle.std.specs.List.{list_all};
    ghost use Rattle.rs_path.specs.Items.{is_entry, is_item, is_ascending};

    ghost view = { λ i. i.list.items };

    ghost invariant = { λ i. record {
      ascending : IsTrue (is_ascending i.list.items);
      plain : IsTrue (list_all is_item i.list.items);
      parts : IsTrue (list_all is_entry i.list.items);
    } };
}

impl Items {
    /// No items.
    pub fn new(alloc: Global) -> Items
        ensures empty { result ≡ [] }
    {
        Items {
            list: Vec::new(alloc),
        }
    }

    /// Appends an item. Where memory runs out, the items are as before and the item is dropped.
    pub fn push(&mut self, item: Entry) -> Result<(), NoMemory>
        requires above { All (λ entry. IsTrue (comes_before entry item)) self.old }
        requires plain { IsTrue (is_item item) }
        ensures ok { OnOk result (self.new ≡ self.old ++ item ∷ []) }
        ensures err { OnErr result (self.new ≡ self.old) }
    {
        item.look();
        self.list.push(item)?;
        Ok(())
    }

    /// The items.
    pub fn as_slice(&self) -> &[Entry]
        ensures items { result.now ≡ self.now }
        ensures ascending { IsTrue (is_ascending self.now) }
        ensures plain { IsTrue (list_all is_item self.now) }
        // The parts of each entry are what their types promise.
        ensures parts { IsTrue (list_all is_entry self.now) }
    {
        self.list.as_slice()
    }

    /// Equal items, from the same allocators.
    pub fn copy(&self) -> Result<Items, NoMemory>
        ensures same { IfOk result (λ copied. copied ≡ self.now) }
    {
        Ok(Items {
            list: copy_of(self.list.as_slice(), *self.list.allocator())?,
        })
    }
}

impl PartialEq for Items {
    ghost use Rattle.std.specs.Cmp.{partial_equiv_from_equiv};
    ghost use Rattle.rs_path.specs.SameEntries.{same_entries, same_entries_equiv};

    ghost eq = { same_entries };

    ghost laws = { partial_equiv_from_equiv same_entries_equiv };

    fn eq(&self, other: &Items) -> bool {
        self.list.as_slice() == other.list.as_slice()
    }
}

impl Eq for Items {
    ghost use Rattle.rs_path.specs.SameEntries.{same_entries_equiv};

    ghost laws = { same_entries_equiv };
}

fn copy_of(entries: &[Entry], alloc: Global) -> Result<Vec<Entry>, NoMemory>
    ensures { IfOk result (λ copied. copied.items ≡ entries.now) }
{
    let mut copied = Vec::with_capacity(alloc, entries.len())?;
    for entry in entries {
        copied.push(entry.copy()?)?;
    }
    Ok(copied)
}
