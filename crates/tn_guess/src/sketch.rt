//! What firms say of themselves for a guess.

use crate::flow::{Flow, GROUND};
use crate::lists::{at, put};
use tn_base::Side;

/// How many own trades a firm may have.
const POSITIONS: usize = 64;

/// A flow into which one firm after another puts its own nodes and arcs, and where the firm's own trades end: each at a
/// node, with an amount that it is worth beside what the arcs cost.
#[derive(Drop)]
pub struct Sketch {
    /// The flow so far.
    pub flow: Flow,
    nodes: [u32; POSITIONS],
    amounts: [i128; POSITIONS],
}

impl Sketch {
    /// A sketch over a flow, in which every position ends at the ground with no amount.
    pub fn over(flow: Flow) -> Sketch {
        Sketch {
            flow,
            nodes: [GROUND; POSITIONS],
            amounts: [0; POSITIONS],
        }
    }

    /// The trade at a position ends at this node, and is worth this amount.
    pub fn end(&mut self, position: u32, node: u32, amount: i128) {
        put(&mut self.nodes, position, node);
        put(&mut self.amounts, position, amount);
    }

    /// This trade stands at a position, on this side: it ends where the firm has said.
    pub fn join(&mut self, position: u32, trade: u32, side: Side) {
        let node = at(&self.nodes, position, GROUND);
        let amount = at(&self.amounts, position, 0);
        match side {
            Side::Buy => self.flow.buys(trade, node, amount),
            Side::Sell => self.flow.sells(trade, node, amount),
        }
    }

    /// The flow that was laid out.
    pub fn into_flow(self) -> Flow {
        self.flow
    }
}
