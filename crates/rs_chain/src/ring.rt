//! Rings of siblings.

ghost use Rattle.std.specs.Prelude.{◌≡◌, ℕ, List, Some, None};
ghost use Rattle.slab.specs.Slab.{ContainsKey};
ghost use Rattle.rs_chain.specs.Nodes.{node_number, node_parent, node_first, node_next, node_prev, ChangesAt, Stays, SameButLinks};
ghost use Rattle.rs_chain.specs.Rings.{In, Lacks, AreRings, first_without, taken_out, put_first};
ghost use Rattle.rs_chain.specs.Climbs.{AreLinked};

use crate::node::{Node, node_first, node_next, node_prev, set_first, set_next, set_prev};
use slab::Slab;

/// Lets a child be the first among its siblings.
pub(crate) fn raise(nodes: &mut Slab<Node>, folder: usize, child: usize)
    requires linked { (order : ℕ → List ℕ) × AreLinked nodes.old order }
    requires child { node_parent nodes.old child ≡ Some folder }
    ensures linked { (order : ℕ → List ℕ) → AreLinked nodes.old order → AreLinked nodes.new (put_first folder child (taken_out folder child order)) }
    ensures number { Stays (node_number nodes.old) (node_number nodes.new) }
    ensures rest { SameButLinks nodes.old nodes.new }
{
    take_out(nodes, folder, child);
    put_first(nodes, folder, child);
}

/// Takes a child out of its folder's ring.
pub(crate) fn take_out(nodes: &mut Slab<Node>, folder: usize, child: usize)
    requires ring { (order : ℕ → List ℕ) × AreRings (node_next nodes.old) (node_prev nodes.old) (node_first nodes.old) order × In child (order folder)
        × ((k : ℕ) → In k (order folder) → ContainsKey nodes.old k) }
    requires folder { ContainsKey nodes.old folder }
    ensures rings { (order : ℕ → List ℕ) → AreRings (node_next nodes.old) (node_prev nodes.old) (node_first nodes.old) order → In child (order folder)
        → AreRings (node_next nodes.new) (node_prev nodes.new) (node_first nodes.new) (taken_out folder child order) }
    ensures number { Stays (node_number nodes.old) (node_number nodes.new) }
    ensures rest { SameButLinks nodes.old nodes.new }
{
    let next = node_next(nodes, child);
    let prev = node_prev(nodes, child);
    let first = node_first(nodes, folder);
    link(nodes, prev, next);
    set_first(nodes, folder, first_without(first, child, next));
}

fn first_without(first: Option<usize>, child: usize, next: usize) -> Option<usize>
    ensures first { result ≡ first_without first child next }
{
    match first {
        None => None,
        Some(first) => {
            if first != child {
                Some(first)
            } else if next == child {
                None
            } else {
                Some(next)
            }
        }
    }
}

/// Puts a child that is in no ring before the others of its folder.
pub(crate) fn put_first(nodes: &mut Slab<Node>, folder: usize, child: usize)
    requires ring { (order : ℕ → List ℕ) × AreRings (node_next nodes.old) (node_prev nodes.old) (node_first nodes.old) order
        × ((k : ℕ) → In k (order folder) → ContainsKey nodes.old k) }
    requires folder { ContainsKey nodes.old folder }
    requires child { ContainsKey nodes.old child }
    ensures rings { (order : ℕ → List ℕ) → AreRings (node_next nodes.old) (node_prev nodes.old) (node_first nodes.old) order
        → ((f : ℕ) → Lacks child (order f))
        → AreRings (node_next nodes.new) (node_prev nodes.new) (node_first nodes.new) (put_first folder child order) }
    ensures number { Stays (node_number nodes.old) (node_number nodes.new) }
    ensures rest { SameButLinks nodes.old nodes.new }
{
    match node_first(nodes, folder) {
        None => lead(nodes, folder, child, child),
        Some(first) => join(nodes, folder, child, first),
    }
}

// Puts the child between the last and the first of a ring.
fn join(nodes: &mut Slab<Node>, folder: usize, child: usize, first: usize)
    requires ring { (order : ℕ → List ℕ) × AreRings (node_next nodes.old) (node_prev nodes.old) (node_first nodes.old) order
        × ((k : ℕ) → In k (order folder) → ContainsKey nodes.old k) }
    requires folder { ContainsKey nodes.old folder }
    requires child { ContainsKey nodes.old child }
    requires first { node_first nodes.old folder ≡ Some first }
    ensures rings { (order : ℕ → List ℕ) → AreRings (node_next nodes.old) (node_prev nodes.old) (node_first nodes.old) order
        → ((f : ℕ) → Lacks child (order f))
        → AreRings (node_next nodes.new) (node_prev nodes.new) (node_first nodes.new) (put_first folder child order) }
    ensures number { Stays (node_number nodes.old) (node_number nodes.new) }
    ensures rest { SameButLinks nodes.old nodes.new }
{
    let last = node_prev(nodes, first);
    link(nodes, last, child);
    lead(nodes, folder, child, first);
}

// Lets the child lead on to the next, and be the folder's first.
fn lead(nodes: &mut Slab<Node>, folder: usize, child: usize, next: usize)
    requires folder { ContainsKey nodes.old folder }
    requires child { ContainsKey nodes.old child }
    requires next { ContainsKey nodes.old next }
    ensures next { ChangesAt (node_next nodes.old) (node_next nodes.new) child next }
    ensures prev { ChangesAt (node_prev nodes.old) (node_prev nodes.new) next child }
    ensures first { ChangesAt (node_first nodes.old) (node_first nodes.new) folder (Some child) }
    ensures number { Stays (node_number nodes.old) (node_number nodes.new) }
    ensures rest { SameButLinks nodes.old nodes.new }
{
    link(nodes, child, next);
    set_first(nodes, folder, Some(child));
}

// Lets one sibling lead on to another.
fn link(nodes: &mut Slab<Node>, one: usize, next: usize)
    requires one { ContainsKey nodes.old one }
    requires next { ContainsKey nodes.old next }
    ensures next { ChangesAt (node_next nodes.old) (node_next nodes.new) one next }
    ensures prev { ChangesAt (node_prev nodes.old) (node_prev nodes.new) next one }
    ensures first { Stays (node_first nodes.old) (node_first nodes.new) }
    ensures number { Stays (node_number nodes.old) (node_number nodes.new) }
    ensures rest { SameButLinks nodes.old nodes.new }
{
    set_next(nodes, one, next);
    set_prev(nodes, next, one);
}
