//! Prices of the trades of a flow of least cost, by labels of its nodes.

use crate::flow::{Flow, GROUND, MOST_WORK};
use crate::lists::{at, put};
use std::alloc::Global;
use tn_base::OutOfMemory;

/// The label of a node from which no walk leads on.
const FAR: i64 = 1_000_000_000_000_000_000;

/// For each node the least cost of a walk, over arcs with more room and back over those with units, that ends at a trade
/// or at the ground. A price is what such walks from the ground and from a trade differ by, so it depends on no tree, and
/// all flows of least cost have the same prices.
#[derive(Drop)]
pub struct Labels<'a> {
    flow: &'a Flow,
    least: Vec<i64>,
}

impl<'a> Labels<'a> {
    /// The walks that end at once: at the ground, and where trades stand. It fails only where memory runs out.
    pub fn begin(alloc: Global, flow: &'a Flow) -> Result<Labels<'a>, OutOfMemory> {
        let mut labels = Labels {
            flow,
            least: vec![in alloc; FAR; flow.nodes as usize]?,
        };
        labels.lower(GROUND, 0);
        for trade in 0..flow.trades() {
            labels.begin_at(trade);
        }
        Ok(labels)
    }

    /// A walk may end at the buyer of a trade that is on, and at the seller of one that isn't.
    fn begin_at(&mut self, trade: u32) {
        let flow = self.flow;
        if flow.is_on(trade) {
            self.lower(flow.to(trade), flow.buyer_amount(trade));
        } else {
            self.lower(flow.from(trade), flow.seller_amount(trade).wrapping_neg());
        }
    }

    /// The label of a node.
    fn label(&self, node: u32) -> i64 {
        at(&self.least, node, FAR)
    }

    /// Lowers a label, and answers whether it was higher.
    fn lower(&mut self, node: u32, cost: i64) -> bool {
        let lower = cost < self.label(node);
        if lower {
            put(&mut self.least, node, cost);
        }
        lower
    }

    /// Lets a walk from one node go on at another, over an arc of this cost, and answers whether that costs less.
    fn go_on(&mut self, node: u32, cost: i64, next: u32) -> bool {
        let rest = self.label(next);
        rest < FAR && self.lower(node, cost.wrapping_add(rest))
    }

    /// Looks at an arc, both ways, and answers whether a label was lowered.
    fn look(&mut self, arc: u32) -> bool {
        let from = self.flow.from(arc);
        let to = self.flow.to(arc);
        let cost = self.flow.cost(arc);
        let units = self.flow.units(arc);
        let along = units < self.flow.room(arc) && self.go_on(from, cost, to);
        let back = units > 0 && self.go_on(to, cost.wrapping_neg(), from);
        along || back
    }

    /// Looks at all arcs, and answers whether a label was lowered.
    fn sweep(&mut self, ascending: bool) -> bool {
        let arcs = self.flow.arcs;
        let mut lowered = false;
        for k in 0..arcs {
            let arc = if ascending {
                k
            } else {
                arcs.wrapping_sub(k).wrapping_sub(1)
            };
            lowered = self.look(arc) || lowered;
        }
        lowered
    }

    /// Looks at all arcs in turn, there and back, until no label is lowered, and answers whether none is. It gives up
    /// after more turns than there are nodes, or after much work.
    pub fn settle(&mut self) -> bool {
        let most = MOST_WORK / self.flow.arcs.wrapping_add(1).max(1);
        for k in 0..most.min(self.flow.nodes.wrapping_add(10)) {
            if !self.sweep(k % 2 == 1) {
                return true;
            }
        }
        false
    }

    /// The least cost of a walk that begins with an amount and goes on from a node, or ends at once.
    fn reach(&self, amount: i64, node: u32) -> i64 {
        let rest = self.label(node);
        if rest == FAR {
            return 0;
        }
        amount.wrapping_add(rest).min(0)
    }

    /// The price of a trade.
    pub fn price(&self, trade: u32) -> i128 {
        let flow = self.flow;
        let own = if flow.is_on(trade) {
            self.reach(flow.seller_amount(trade), flow.from(trade))
        } else {
            self.reach(flow.buyer_amount(trade).wrapping_neg(), flow.to(trade))
        };
        i128::from(self.label(GROUND).wrapping_sub(own))
    }
}
