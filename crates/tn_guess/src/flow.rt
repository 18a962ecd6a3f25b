//! Flows: units that go over arcs between nodes.

use crate::lists::{at, put};
use std::alloc::Global;
use tn_base::OutOfMemory;

/// The node that stands for no firm: what ends there has no other condition.
pub const GROUND: u32 = 0;

/// About how many arcs and nodes a search looks at before it gives up. Dealers with a thousand trades take a quarter of
/// it, and laminar firms with chains of sets a half, so what was made to be slow takes little longer.
pub(crate) const MOST_WORK: u32 = 40_000_000;

/// Arcs between nodes with the units that go over them. Node 0 is the ground. An arc has room for some units, each at
/// its cost. The first arcs are trades, each from its seller to its buyer with room for one unit.
#[derive(Drop)]
pub struct Flow {
    pub(crate) nodes: u32,
    trades: u32,
    pub(crate) arcs: u32,
    from: Vec<u32>,
    to: Vec<u32>,
    room: Vec<u32>,
    units: Vec<u32>,
    cost: Vec<i64>,
    at_seller: Vec<i64>,
    at_buyer: Vec<i64>,
}

/// A number in 64 bits, 0 where it doesn't fit.
fn narrowed(number: i128) -> i64 {
    match i64::try_from(number) {
        Ok(number) => number,
        Err(_) => 0,
    }
}

impl Flow {
    /// The ground and so many trades, from it to itself. No unit goes over them.
    pub fn of_trades(alloc: Global, trades: u32) -> Result<Flow, OutOfMemory> {
        let count = trades as usize;
        Ok(Flow {
            nodes: 1,
            trades,
            arcs: trades,
            from: vec![in alloc; GROUND; count]?,
            to: vec![in alloc; GROUND; count]?,
            room: vec![in alloc; 1; count]?,
            units: vec![in alloc; 0; count]?,
            cost: vec![in alloc; 0; count]?,
            at_seller: vec![in alloc; 0; count]?,
            at_buyer: vec![in alloc; 0; count]?,
        })
    }

    /// How many trades there are.
    pub fn trades(&self) -> u32 {
        self.trades
    }

    /// How many arcs there are, those of trades among them.
    pub fn arcs(&self) -> u32 {
        self.arcs
    }

    /// So many nodes more, with numbers that follow each other; the first of them.
    pub fn add_nodes(&mut self, count: u32) -> u32 {
        let first = self.nodes;
        self.nodes = first.wrapping_add(count);
        first
    }

    /// One arc more, with room for so many units at this cost each. It fails only where memory runs out.
    pub fn add_arc(
        &mut self,
        from: u32,
        to: u32,
        room: u32,
        cost: i128,
    ) -> Result<(), OutOfMemory> {
        self.from.push(from)?;
        self.to.push(to)?;
        self.room.push(room)?;
        self.units.push(0)?;
        self.cost.push(narrowed(cost))?;
        self.arcs = self.arcs.wrapping_add(1);
        Ok(())
    }

    /// The seller of a trade stands at a node, and the trade is worth an amount to it.
    pub(crate) fn sells(&mut self, trade: u32, node: u32, amount: i128) {
        put(&mut self.from, trade, node);
        put(&mut self.at_seller, trade, narrowed(amount));
        self.settle_cost(trade);
    }

    /// The buyer of a trade stands at a node, and the trade is worth an amount to it.
    pub(crate) fn buys(&mut self, trade: u32, node: u32, amount: i128) {
        put(&mut self.to, trade, node);
        put(&mut self.at_buyer, trade, narrowed(amount));
        self.settle_cost(trade);
    }

    /// A trade costs minus what it is worth at its two ends.
    fn settle_cost(&mut self, trade: u32) {
        let worth = self
            .seller_amount(trade)
            .wrapping_add(self.buyer_amount(trade));
        put(&mut self.cost, trade, worth.wrapping_neg());
    }

    /// Whether a trade carries its unit.
    pub fn is_on(&self, trade: u32) -> bool {
        self.units(trade) > 0
    }

    /// What a trade is worth to its seller.
    pub(crate) fn seller_amount(&self, trade: u32) -> i64 {
        at(&self.at_seller, trade, 0)
    }

    /// What a trade is worth to its buyer.
    pub(crate) fn buyer_amount(&self, trade: u32) -> i64 {
        at(&self.at_buyer, trade, 0)
    }

    /// The node from which an arc leads.
    pub fn from(&self, arc: u32) -> u32 {
        at(&self.from, arc, GROUND)
    }

    /// The node to which an arc leads.
    pub fn to(&self, arc: u32) -> u32 {
        at(&self.to, arc, GROUND)
    }

    /// For how many units an arc has room.
    pub fn room(&self, arc: u32) -> u32 {
        at(&self.room, arc, 0)
    }

    /// How many units go over an arc.
    pub fn units(&self, arc: u32) -> u32 {
        at(&self.units, arc, 0)
    }

    /// What a unit costs on an arc.
    pub fn cost(&self, arc: u32) -> i64 {
        at(&self.cost, arc, 0)
    }

    /// Lets so many units more go over an arc, or so many fewer.
    pub(crate) fn carry(&mut self, arc: u32, more: bool, units: u32) {
        let now = self.units(arc);
        let then = if more {
            now.wrapping_add(units)
        } else {
            now.wrapping_sub(units)
        };
        put(&mut self.units, arc, then);
    }
}
