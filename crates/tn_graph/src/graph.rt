//! Graphs by the costs of their arcs, in one block for each firm.

ghost use Rattle.std.specs.Prelude.{◌≡◌, ◌+◌, ◌*◌, ◌≤◌, ◌<◌, true, false, length, IfOk, IfSome, IsSome};
ghost use Rattle.tn_base.specs.Arcs.{IsAtMost};
ghost use Rattle.tn_base.specs.Sets.{has};
ghost use Rattle.tn_base.specs.Widths.{most_cost};
ghost use Rattle.tn_market.specs.Widths.{most_market_trades};
ghost use Rattle.tn_graph.specs.Blocks.{cost_in_cell, listed_at, listed_count, place_of, room_of, spot_at, HasRoomForBlocks};
ghost use Rattle.tn_graph.specs.Layout.{IsLaidOut, IsTurned};
ghost use Rattle.tn_graph.specs.Reading.{IsCostWritten, IsWithoutArcs};

use crate::places::Places;
use crate::spot::Spot;
use std::alloc::Global;
use std::marker::Model;
use tn_base::{Costs, OutOfMemory, TradeSet};
use tn_market::{Market, Valuation};

/// The number of no arc: it is above every cost.
const NO_ARC: i64 = i64::MAX;

/// A bound on the size of every cost.
const MOST_COST: i64 = 1_000_000_000_000_000_000;

/// A place that no trade has.
const NOWHERE: Spot = Spot {
    start: 0,
    count: 0,
    own: 0,
    position: 0,
};

/// A directed graph by the costs of its arcs, which are at most 10^18 in size. Where it is laid out for a market, each
/// firm that has a trade has a block of costs, with a row and a column for each own trade and for null: an arc leads
/// from what the firm may have raised to what it may have lowered. Contracts see how many nodes there are, where the
/// trades stand, and the cost of each arc by `arcs_of`.
#[derive(Drop)]
pub struct Graph {
    nodes: u32,
    /// How many trades have places: none or all.
    laid: u32,
    places: Places,
    /// The blocks, one after another, each row by row.
    cells: Vec<i64>,
    ghost sound: { HasRoomForBlocks nodes (record {
      laid = laid;
      raised = places.raised.items;
      lowered = places.lowered.items;
      own = places.own.items;
    }) cells.items },
}

impl Model for Graph {
    ghost use Rattle.tn_graph.specs.Blocks.{CostBlocks};

    ghost Value = { CostBlocks };

    ghost view = { λ graph. record {
      nodes = graph.nodes;
      places = record {
        laid = graph.laid;
        raised = graph.places.raised.items;
        lowered = graph.places.lowered.items;
        own = graph.places.own.items;
      };
      cells = graph.cells.items;
      sound = graph.sound;
    } };
}

/// The number that stands for the cost of an arc.
#[tactic(auto, unfolding(crate::specs::Blocks::cost_in_cell))]
fn packed(cost: Option<i128>) -> i64
    requires { IfSome cost (λ c. IsAtMost c most_cost) }
    ensures { cost_in_cell result ≡ cost }
{
    match cost {
        Some(cost) => cost as i64,
        None => NO_ARC,
    }
}

/// The cost of an arc that a number stands for.
#[tactic(auto, unfolding(crate::specs::Blocks::cost_in_cell))]
fn unpacked(number: i64) -> Option<i128>
    ensures { result ≡ cost_in_cell number }
{
    if -MOST_COST <= number && number <= MOST_COST {
        Some(i128::from(number))
    } else {
        None
    }
}

/// How many costs the blocks of every market of so many nodes have at most. A firm has at most 64 own trades.
#[tactic(auto, unfolding(crate::specs::Blocks::room_of))]
fn room(nodes: u32) -> u32
    requires { nodes ≤ most_market_trades + 1 }
    ensures { result ≡ room_of nodes }
{
    let widest = if nodes < 66 { nodes } else { 66 };
    2 * (nodes * widest)
}

impl Graph {
    /// A graph of 1 to 2,049 nodes without arcs, with room for the blocks of every market of so many nodes. It fails
    /// only where memory runs out, and no other call takes memory.
    pub fn new(alloc: Global, nodes: u32) -> Result<Graph, OutOfMemory>
        requires from_one { 1 ≤ nodes }
        requires few { nodes ≤ most_market_trades + 1 }
        ensures { IfOk result (λ graph. IsWithoutArcs nodes graph) }
    {
        let places = Places {
            raised: vec![in alloc; NOWHERE; nodes as usize]?,
            lowered: vec![in alloc; NOWHERE; nodes as usize]?,
            own: vec![in alloc; 0; (2 * nodes) as usize]?,
        };
        Ok(Graph {
            nodes,
            laid: 0,
            places,
            cells: vec![in alloc; NO_ARC; room(nodes) as usize]?,
        })
    }

    /// Lays out a block for each firm of a market, where the trades of a set are on, and takes all arcs away. The graph
    /// has one node more than the market has trades, of which there are at most `64 * W`.
    pub fn lay_out<V: Valuation, const W: usize>(&mut self, market: &Market<V>, on: &TradeSet<W>)
        requires wide { length market.now.trades ≤ 64 * W }
        requires sized { self.old.nodes ≡ length market.now.trades + 1 }
        ensures without { IsWithoutArcs self.old.nodes self.new }
        ensures laid_out { IsLaidOut market.now.trades (has on.now) self.new.places }
    {
        let trades = market.trades();
        self.places.lay_out(market, on);
        self.cells.fill(NO_ARC);
        self.laid = trades;
    }

    /// The place of the cost of the arc from `a` to `b`, None where no block has both.
    fn place(&self, a: u32, b: u32) -> Option<u32>
        requires from { a < self.now.nodes }
        requires to { b < self.now.nodes }
        ensures place { result ≡ place_of self.now.nodes self.now.places a b }
        ensures inside { IfSome result (λ place. place < length self.now.cells) }
    {
        match (a < self.laid, b < self.laid) {
            (true, true) => {
                let from = self.places.raised[a as usize];
                let to = self.places.lowered[b as usize];
                if from.start == to.start {
                    Some(from.place(from.position, to.position))
                } else {
                    None
                }
            }
            (true, false) => {
                let from = self.places.raised[a as usize];
                Some(from.place(from.position, from.count))
            }
            (false, true) => {
                let to = self.places.lowered[b as usize];
                Some(to.place(to.count, to.position))
            }
            (false, false) => None,
        }
    }

    /// Writes the cost of the arc from `a` to `b`, or that there is none. Both are nodes, and a cost is at most 10^18
    /// in size, of an arc that has a place.
    pub fn set(&mut self, a: u32, b: u32, cost: Option<i128>)
        requires from { a < self.old.nodes }
        requires to { b < self.old.nodes }
        requires small { IfSome cost (λ c. IsAtMost c most_cost) }
        requires placed { IfSome cost (λ _. IsSome (place_of self.old.nodes self.old.places a b)) }
        ensures { IsCostWritten self.old a b cost self.new }
    {
        if let Some(place) = self.place(a, b) {
            self.cells[place as usize] = packed(cost);
        }
    }

    /// How many nodes there are.
    pub fn size(&self) -> u32
        ensures { result ≡ self.now.nodes }
    {
        self.nodes
    }

    /// Lets trade `t` change its two places.
    pub(crate) fn turn(&mut self, t: u32)
        requires { t < self.old.nodes }
        ensures nodes { self.new.nodes ≡ self.old.nodes }
        ensures cells { self.new.cells ≡ self.old.cells }
        ensures turned { IsTurned t self.old.places self.new.places }
    {
        let up = self.places.raised[t as usize];
        self.places.raised[t as usize] = self.places.lowered[t as usize];
        self.places.lowered[t as usize] = up;
    }

    /// Where a node stands in the block of the firm that it raises, or lowers.
    fn spot(&self, rises: bool, v: u32) -> Spot
        requires { v < self.now.nodes }
        ensures { result ≡ spot_at self.now.places rises v }
    {
        if rises {
            self.places.raised[v as usize]
        } else {
            self.places.lowered[v as usize]
        }
    }

    /// How many nodes stand in the block in which a node is raised, or lowered.
    #[tactic(auto, unfolding(crate::specs::Blocks::listed_count))]
    pub(crate) fn listed(&self, rises: bool, v: u32) -> u32
        requires { v < self.now.nodes }
        ensures { result ≡ listed_count self.now.places rises v }
    {
        if v < self.laid {
            self.spot(rises, v).count + 1
        } else {
            self.laid
        }
    }

    /// The node at place `k` of these.
    #[tactic(auto, unfolding(crate::specs::Blocks::listed_at))]
    pub(crate) fn listed_at(&self, rises: bool, v: u32, k: u32) -> u32
        requires node { v < self.now.nodes }
        requires place { k < listed_count self.now.places rises v }
        ensures { result ≡ listed_at self.now.places rises v k }
    {
        if v >= self.laid {
            return k;
        }
        let spot = self.spot(rises, v);
        if k < spot.count {
            self.places.own[spot.own as usize + k as usize]
        } else {
            self.laid
        }
    }
}

impl Costs for Graph {
    ghost use Rattle.tn_graph.specs.Blocks.{arcs_of, listed_count, listed_at};
    ghost use Rattle.tn_graph.specs.BlockLemmas.{arcs_of-between, arcs_of-small, arcs_of-predecessors, arcs_of-successors};

    ghost node_count = { λ graph. graph.nodes };

    ghost arc = { arcs_of };

    ghost predecessor_count = { λ graph b. listed_count graph.places false b };

    ghost predecessor_at = { λ graph b k. listed_at graph.places false b k };

    ghost successor_count = { λ graph a. listed_count graph.places true a };

    ghost successor_at = { λ graph a k. listed_at graph.places true a k };

    ghost between_nodes = { arcs_of-between };

    ghost small = { arcs_of-small };

    ghost lists_predecessors = { arcs_of-predecessors };

    ghost lists_successors = { arcs_of-successors };

    fn nodes(&self) -> u32 {
        self.size()
    }

    fn cost(&self, a: u32, b: u32) -> Option<i128> {
        match self.place(a, b) {
            Some(place) => unpacked(self.cells[place as usize]),
            None => None,
        }
    }

    fn predecessors(&self, b: u32) -> u32 {
        self.listed(false, b)
    }

    fn predecessor(&self, b: u32, k: u32) -> u32 {
        self.listed_at(false, b, k)
    }

    fn successors(&self, a: u32) -> u32 {
        self.listed(true, a)
    }

    fn successor(&self, a: u32, k: u32) -> u32 {
        self.listed_at(true, a, k)
    }
}
