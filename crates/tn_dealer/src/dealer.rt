//! A dealer, and which pairs make one.

ghost use Rattle.std.specs.Prelude.{◌≡◌, ◌≤◌, length, All, IfOk, IfErr};
ghost use Rattle.tn_base.specs.Table.{buys_of};
ghost use Rattle.tn_dealer.specs.Costs.{AreCosts};
ghost use Rattle.tn_dealer.specs.Pairs.{AreUnrepeated, IsDealer, IsOwnPair, IsRefusedFor, dealer_firm};
ghost use Rattle.tn_market.specs.Widths.{most_own};

use crate::costs::{CELLS, costs_of};
use crate::pair::{DealerRefusal, Pair};
use crate::repeated::first_repeated;
use std::alloc::Global;
use tn_base::{Bundle, OutOfMemory, Side, purchases};

/// A firm that buys several items and sells them on: it matches the purchases of a bundle one to one with its sales, by
/// listed pairs, at the least cost (the assignment problem: Kuhn, 1955; Murota, Discrete Convex Analysis, 2003, on
/// valuated matchings).
#[derive(Drop)]
pub struct Dealer {
    pub(crate) trades: u32,
    pub(crate) buys: Bundle,
    pub(crate) pairs: Vec<Pair>,
    /// The costs of the pairs by purchase and sale.
    pub(crate) costs: Box<[i32; CELLS]>,
    ghost dealer: { IsDealer trades buys pairs.items },
    ghost different: { AreUnrepeated pairs.items },
    ghost placed: { AreCosts pairs.items costs.value },
}

impl Dealer {
    ghost use Rattle.tn_dealer.specs.Firms.{firm_of};

    /// The firm with these sides by position and these pairs, each of an own purchase and an own sale; there are at
    /// most 60 trades, and no cost is above 10^9 in size.
    ///
    /// A list in which a pair has the purchase and the sale of an earlier one is refused with the first such pair.
    /// Without one memory may still run out.
    pub fn new(alloc: Global, sides: Vec<Side>, pairs: Vec<Pair>) -> Result<Dealer, DealerRefusal>
        requires few { length sides.items ≤ most_own }
        requires own { All (IsOwnPair (length sides.items) (buys_of sides.items)) pairs.items }
        ensures firm { IfOk result (λ dealer. firm_of dealer ≡ dealer_firm sides.items pairs.items) }
        ensures different { IfOk result (λ dealer. AreUnrepeated pairs.items) }
        ensures refused { IfErr result (IsRefusedFor pairs.items) }
    {
        match first_repeated(&pairs) {
            Some(index) => Err(DealerRefusal::SamePair { index }),
            None => match Dealer::of_different(alloc, sides, pairs) {
                Ok(dealer) => Ok(dealer),
                Err(OutOfMemory) => Err(DealerRefusal::OutOfMemory),
            },
        }
    }

    /// The same, where no pair has the purchase and the sale of an earlier one: nothing is searched. It fails only
    /// where memory runs out.
    pub fn of_different(
        alloc: Global,
        sides: Vec<Side>,
        pairs: Vec<Pair>,
    ) -> Result<Dealer, OutOfMemory>
        requires few { length sides.items ≤ most_own }
        requires own { All (IsOwnPair (length sides.items) (buys_of sides.items)) pairs.items }
        requires different { AreUnrepeated pairs.items }
        ensures { IfOk result (λ dealer. firm_of dealer ≡ dealer_firm sides.items pairs.items) }
    {
        let costs = Box::new(alloc, costs_of(&pairs))?;
        Ok(Dealer {
            trades: sides.len() as u32,
            buys: purchases(&sides),
            pairs,
            costs,
        })
    }
}
