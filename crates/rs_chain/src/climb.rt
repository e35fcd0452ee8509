//! The climb from a node to the root.

ghost use Rattle.std.specs.Prelude.{◌≡◌, ℕ, ◌+◌, ◌≤◌, List, length, Some};
ghost use Rattle.slab.specs.Slab.{ContainsKey};
ghost use Rattle.rs_chain.specs.Nodes.{node_number, node_parent, node_first, node_next, node_prev, ChangesAt, Stays, SameButNumbers};
ghost use Rattle.rs_chain.specs.Rings.{taken_out, put_first};
ghost use Rattle.rs_chain.specs.Climbs.{AreLinked, Climbs, Climbed};

use crate::node::{Node, node_parent, set_number};
use crate::ring::raise;
use crate::steps::Steps;
use rs_path::{MAX_NAMES, limit_laws};
use slab::Slab;
use std::sync::ledger::Ledger;

/// Gives a node and each folder above it the number, and puts each first among its siblings: one step for each.
pub(crate) fn climb<L: Ledger>(nodes: &mut Slab<Node>, from: usize, n: u64, steps: &mut Steps<L>)
    requires way { (order : ℕ → List ℕ) × (above : List ℕ) × AreLinked nodes.old order × Climbs (node_parent nodes.old) from above × (length above ≤ 32) }
    requires there { ContainsKey nodes.old from }
    ensures climbed { (order : ℕ → List ℕ) (above : List ℕ) → AreLinked nodes.old order → Climbs (node_parent nodes.old) from above
        → Climbed nodes.old nodes.new order from above n steps.old steps.new }
{
    limit_laws();
    visit(nodes, from, n, steps);
    let mut at = from;
    for _level in 0..MAX_NAMES {
        match node_parent(nodes, at) {
            None => return,
            Some(folder) => {
                lift(nodes, folder, at, n, steps);
                at = folder;
            }
        }
    }
}

// One level up: the child is the first of its siblings, and its folder gets the number.
fn lift<L: Ledger>(
    nodes: &mut Slab<Node>,
    folder: usize,
    child: usize,
    n: u64,
    steps: &mut Steps<L>,
)
    requires linked { (order : ℕ → List ℕ) × AreLinked nodes.old order }
    requires child { node_parent nodes.old child ≡ Some folder }
    ensures linked { (order : ℕ → List ℕ) → AreLinked nodes.old order → AreLinked nodes.new (put_first folder child (taken_out folder child order)) }
    ensures number { ChangesAt (node_number nodes.old) (node_number nodes.new) folder n }
    ensures rest { SameButNumbers nodes.old nodes.new }
    ensures step { steps.new ≡ steps.old + 1 }
{
    raise(nodes, folder, child);
    visit(nodes, folder, n, steps);
}

// One step: a node gets the number.
fn visit<L: Ledger>(nodes: &mut Slab<Node>, key: usize, n: u64, steps: &mut Steps<L>)
    requires there { ContainsKey nodes.old key }
    ensures next { Stays (node_next nodes.old) (node_next nodes.new) }
    ensures prev { Stays (node_prev nodes.old) (node_prev nodes.new) }
    ensures first { Stays (node_first nodes.old) (node_first nodes.new) }
    ensures number { ChangesAt (node_number nodes.old) (node_number nodes.new) key n }
    ensures rest { SameButNumbers nodes.old nodes.new }
    ensures step { steps.new ≡ steps.old + 1 }
{
    steps.tick();
    set_number(nodes, key, n);
}
