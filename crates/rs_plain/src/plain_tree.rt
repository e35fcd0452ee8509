//! Plain trees.

ghost use Rattle.std.specs.Prelude.{◌≡◌, ◌∷◌, ◌++◌, [], ◌<◌, ◌≤◌, true, vec_len, vec_capacity};
ghost use Rattle.rs_rules.specs.Documents.{others, placed_document};
ghost use Rattle.rs_plain.specs.PlainTrees.{other_writes, is_written, are_written};

use crate::documents::{clash_in, doc_in, live_in};
use crate::full::full_in;
use crate::listing::items_in;
use crate::room::Room;
use crate::versions::version_in;
use crate::write::Write;
use crate::writes::{add, forget, is_written, renumber};
use rs_path::{Bytes, Items, Kind, NoMemory, Path};
use rs_rules::{Doc, Placed, Tree};
use std::alloc::Global;

/// The tree as plain lists: its documents in the order of their numbers, and the last write of each path that was ever
/// written, in the order of the numbers too. What it answers it finds by scanning them.
#[derive(Debug, Drop)]
pub struct PlainTree {
    docs: Vec<Placed>,
    writes: Vec<Write>,
}

impl Tree for PlainTree {
    ghost use Rattle.std.specs.Prelude.{◌≤◌, vec_len, vec_capacity};
    ghost use Rattle.rs_plain.specs.PlainTrees.{ListsStandFor, IsRoomFor, stands_distinct, stands_dated};

    type Ready = Room;

    ghost stands = { λ t w. ListsStandFor t.docs.items t.writes.items w × (vec_len t.writes ≤ vec_capacity t.writes) };

    ghost ready_for = { λ t room path kind body. IsRoomFor (vec_len t.docs) (vec_capacity t.docs) (vec_len t.writes) (vec_capacity t.writes) room path kind body };

    ghost distinct = { λ t w s. stands_distinct t.docs.items t.writes.items w s.0 };

    ghost dated = { λ t w s path document named. stands_dated t.docs.items t.writes.items w s.0 path document };

    fn new(alloc: Global) -> Result<PlainTree, NoMemory> {
        Ok(PlainTree {
            docs: Vec::new(alloc),
            writes: Vec::new(alloc),
        })
    }

    fn find(&self, path: &Path) -> Option<&Doc> {
        doc_in(path, self.docs.as_slice())
    }

    fn version(&self, path: &Path) -> u64 {
        version_in(self.docs.as_slice(), self.writes.as_slice(), path)
    }

    fn items(&self, folder: &Path) -> Result<Items, NoMemory> {
        let alloc = *self.docs.allocator();
        items_in(alloc, self.docs.as_slice(), self.writes.as_slice(), folder)
    }

    fn clash(&self, path: &Path) -> Option<u32> {
        clash_in(self.docs.as_slice(), path)
    }

    fn full(&self, path: &Path) -> Option<u32> {
        full_in(self.docs.as_slice(), path)
    }

    fn live(&self) -> u64 {
        live_in(self.docs.as_slice())
    }

    fn prepare(&mut self, path: &Path, kind: &Kind, body: &Bytes) -> Result<Room, NoMemory> {
        self.docs.reserve(1)?;
        self.writes.reserve(1)?;
        Room::of(path, kind, body)
    }

    fn put(&mut self, n: u64, ready: Room) {
        put_in(&mut self.docs, &mut self.writes, n, ready);
    }

    fn remove(&mut self, n: u64, path: &Path) {
        remove_in(&mut self.docs, &mut self.writes, n, path);
    }
}

// Puts the document that there is room for, in place of what stands at its path.
fn put_in(docs: &mut Vec<Placed>, writes: &mut Vec<Write>, n: u64, room: Room)
    requires docs { vec_len docs.old < vec_capacity docs.old }
    requires writes { vec_len writes.old < vec_capacity writes.old }
    requires same { room.written ≡ room.path }
    requires written { are_written docs.old.items writes.old.items ≡ true }
    ensures docs { docs.new.items ≡ others room.path docs.old.items ++ placed_document n room.path room.kind room.body ∷ [] }
    ensures writes { writes.new.items ≡ other_writes room.path writes.old.items ++ record { path = room.path; number = n } ∷ [] }
    ensures whole { vec_len writes.new ≤ vec_capacity writes.new }
{
    clear(docs, writes, &room.path);
    let write = Write {
        path: room.written,
        number: n,
    };
    add(writes, write);
    let doc = Doc {
        version: n,
        kind: room.kind,
        body: room.body,
    };
    add(
        docs,
        Placed {
            path: room.path,
            doc,
        },
    );
}

// Takes away the document that stands here and the last write. Where nothing was ever written, neither is there.
fn clear(docs: &mut Vec<Placed>, writes: &mut Vec<Write>, here: &Path)
    requires written { are_written docs.old.items writes.old.items ≡ true }
    ensures docs { docs.new.items ≡ others here.now docs.old.items }
    ensures writes { writes.new.items ≡ other_writes here.now writes.old.items }
    ensures docs_len { vec_len docs.new ≤ vec_len docs.old }
    ensures docs_capacity { vec_capacity docs.new ≡ vec_capacity docs.old }
    ensures writes_len { vec_len writes.new ≤ vec_len writes.old }
    ensures writes_capacity { vec_capacity writes.new ≡ vec_capacity writes.old }
{
    if !is_written(writes.as_slice(), here) {
        return;
    }
    withdraw(docs, here);
    forget(writes, here);
}

// Takes away the document at the path; that is the last write of the path.
fn remove_in(docs: &mut Vec<Placed>, writes: &mut Vec<Write>, n: u64, path: &Path)
    requires written { is_written writes.old.items path.now ≡ true }
    requires whole { vec_len writes.old ≤ vec_capacity writes.old }
    ensures docs { docs.new.items ≡ others path.now docs.old.items }
    ensures writes { writes.new.items ≡ other_writes path.now writes.old.items ++ record { path = path.now; number = n } ∷ [] }
    ensures whole { vec_len writes.new ≤ vec_capacity writes.new }
{
    withdraw(docs, path);
    renumber(writes, n, path);
}

// Takes away the document at the path.
fn withdraw(docs: &mut Vec<Placed>, path: &Path)
    ensures items { docs.new.items ≡ others path.now docs.old.items }
    ensures len { vec_len docs.new ≤ vec_len docs.old }
    ensures capacity { vec_capacity docs.new ≡ vec_capacity docs.old }
{
    docs.retain(|placed| *path != placed.path);
}
