//! Tests of the finder on a ring.

ghost use Rattle.tn_base.specs.ArcLemmas.{lists_all_predecessors, lists_all_successors};
ghost use Rattle.tn_tests.specs.Ring.{ring};
ghost use Rattle.tn_tests.specs.RingLemmas.{between-ring, small-ring};

use std::test::Fail;
use tn_base::{Costs, TradeSet};
use tn_cycle::{Finder, Labels, Path};

/// A ring of nodes: from each to the next at 2, and from the last to the first at -10, where it gains, or at 1.
#[derive(Clone, Copy)]
struct Ring {
    nodes: u32,
    gains: bool,
}

impl Costs for Ring {
    ghost node_count = { λ it. it.nodes };

    ghost arc = { λ it. ring it.nodes it.gains };

    ghost predecessor_count = { λ it b. it.nodes };

    ghost predecessor_at = { λ it b k. k };

    ghost successor_count = { λ it a. it.nodes };

    ghost successor_at = { λ it a k. k };

    fn nodes(&self) -> u32 {
        self.nodes
    }

    fn cost(&self, a: u32, b: u32) -> Option<i128> {
        let nodes = self.nodes;
        if b == a + 1 {
            Some(2)
        } else if b == 0 && a + 1 == nodes {
            Some(if self.gains { -10 } else { 1 })
        } else {
            None
        }
    }

    fn predecessors(&self, b: u32) -> u32 {
        self.nodes
    }

    fn predecessor(&self, b: u32, k: u32) -> u32 {
        k
    }

    fn successors(&self, a: u32) -> u32 {
        self.nodes
    }

    fn successor(&self, a: u32, k: u32) -> u32 {
        k
    }

    ghost between_nodes = { λ it. between-ring it.nodes it.gains };

    ghost small = { λ it. small-ring it.nodes it.gains };

    ghost lists_predecessors = { λ it b inside. lists_all_predecessors it.nodes (ring it.nodes it.gains)
        (between-ring it.nodes it.gains) b };

    ghost lists_successors = { λ it a inside. lists_all_successors it.nodes (ring it.nodes it.gains)
        (between-ring it.nodes it.gains) a };
}

/// The cycle through the first node goes all round.
#[test]
fn finds_the_ring(rt: HostRuntime) -> Result<(), Fail> {
    let mut admitted = TradeSet::<1>::empty();
    admitted.toggle(1);
    admitted.toggle(2);
    let ring = Ring {
        nodes: 4,
        gains: true,
    };
    let mut finder = Finder::new(rt.alloc(), 4)?;
    finder.label_all();
    let path = finder.through(&ring, 0, &admitted);
    assert!(rt;
        path == Path::Cycle {
            cost: -4,
            length: 4
        }
    );
    assert!(rt; [finder.at(0), finder.at(1), finder.at(2), finder.at(3)] == [0, 1, 2, 3]);
    Ok(())
}

/// A ring that doesn't gain is a least cycle all the same, and labels of 0 keep its arcs.
#[test]
fn finds_the_least_ring(rt: HostRuntime) -> Result<(), Fail> {
    let mut admitted = TradeSet::<1>::empty();
    admitted.toggle(1);
    admitted.toggle(2);
    let ring = Ring {
        nodes: 4,
        gains: false,
    };
    let mut finder = Finder::new(rt.alloc(), 4)?;
    finder.label_all();
    let path = finder.least_through(&ring, 0, &admitted);
    assert!(rt; path == Path::Cycle { cost: 7, length: 4 });
    finder.label_all();
    admitted.toggle(0);
    finder.relabel(&ring, &admitted);
    let relabelled = [finder.label(0), finder.label(3)];
    finder.set_label(0, 5);
    assert!(rt; [relabelled, [finder.label(0), finder.label(3)]] == [[0, 0], [5, 0]]);
    Ok(())
}

/// A ring that gains is the negative cycle, from its null node on.
#[test]
fn answers_the_negative_ring(rt: HostRuntime) -> Result<(), Fail> {
    let ring = Ring {
        nodes: 4,
        gains: true,
    };
    let mut finder = Finder::new(rt.alloc(), 4)?;
    let labels = finder.labels(&ring);
    assert!(rt;
        labels
            == Labels::Negative {
                cost: -4,
                length: 4
            }
    );
    assert!(rt; [finder.at(0), finder.at(1), finder.at(2), finder.at(3)] == [3, 0, 1, 2]);
    Ok(())
}

/// A ring that doesn't gain has labels and least walks.
#[test]
fn finds_labels_and_walks(rt: HostRuntime) -> Result<(), Fail> {
    let ring = Ring {
        nodes: 4,
        gains: false,
    };
    let mut finder = Finder::new(rt.alloc(), 4)?;
    let mut other = Finder::new(rt.alloc(), 4)?;
    let Labels::Feasible = finder.labels(&ring) else {
        return Err("the ring doesn't gain")?;
    };
    let labels = [finder.label(0), finder.label(3)];
    finder.label_all();
    other.label_as(&finder);
    finder.least_to(&ring, 3);
    other.least_from(&ring, 3);
    let distances = [finder.distance(1), other.distance(1)];
    assert!(rt; distances == [Some(4), Some(3)]);
    let count = other.walk(1);
    assert!(rt; count == 3);
    let walk = [other.at(0), other.at(1), other.at(2)];
    assert!(rt; (labels, walk) == ([0, 0], [3, 0, 1]));
    Ok(())
}
