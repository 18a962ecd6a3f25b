//! The best counts of each firm at given prices.

ghost use Rattle.std.specs.Prelude.{◌≡◌, ℕ, ◌<◌, ◌≤◌, ℤ, length, map, pos, IfOk};
ghost use Rattle.std.specs.List.{range_with_len};
ghost use Rattle.tn_base.specs.Arcs.{IsAtMost};
ghost use Rattle.tn_counts.specs.Counts.{IsBestCount, count_utility};
ghost use Rattle.tn_counts.specs.Laminar.{firm_of};
ghost use Rattle.tn_counts.specs.Markets.{IsUnitMarket, IsWideMarket};
ghost use Rattle.tn_counts.specs.Widths.{most_unit_price, most_wide_trades};
ghost use Rattle.tn_tree.specs.Lists.{own_counts, pin_of, price_in};

use crate::around::trade_node;
use crate::build::links_of;
use crate::settled::settled;
use crate::solve::levels_from;
use std::alloc::Global;
use tn_base::OutOfMemory;
use tn_counts::{Pin, UnitMarket};
use tn_cycle::Finder;

/// How many units of each trade its seller would best sell at given prices, and how many its buyer would best buy, by trade
/// number.
#[derive(Drop)]
pub struct BestCounts {
    pub sold: Vec<u32>,
    pub bought: Vec<u32>,
}

/// A pin for each trade.
fn pin_all(alloc: Global, prices: &[i64]) -> Result<Vec<Pin>, OutOfMemory>
    requires few { length prices.now ≤ most_wide_trades }
    requires small { (t : ℕ) → t < length prices.now → IsAtMost (price_in prices.now t) most_unit_price }
    ensures { IfOk result (λ pins. pins.items ≡ map (pin_of prices.now) (range_with_len 0 (length prices.now))) }
{
    let mut pins = Vec::new(alloc);
    for t in 0..prices.len() {
        pins.push(Pin {
            trade: t as u32,
            price: prices[t],
        })?;
    }
    Ok(pins)
}

/// Finds for each firm the best counts at these prices, each firm for itself: how many units of a trade its seller would
/// sell and how many its buyer would buy may differ. Prices are at most 2 * 10^11 in size. It fails only where memory runs
/// out.
#[tactic(auto, using(tn_counts::proofs::WideLemmas::wide_market))]
pub fn best_counts(
    alloc: Global,
    market: &UnitMarket,
    prices: &[i64],
) -> Result<BestCounts, OutOfMemory>
    requires market { IsUnitMarket market.now }
    requires as_many { length prices.now ≡ length market.now.trades.items }
    requires small { (t : ℕ) → t < length prices.now → IsAtMost (price_in prices.now t) most_unit_price }
    ensures sold { IfOk result (λ best. length best.sold.items ≡ length market.now.trades.items) }
    ensures bought { IfOk result (λ best. length best.bought.items ≡ length market.now.trades.items) }
    ensures best { IfOk result (λ best. (f : ℕ) → f < market.now.firms → (value : ℤ)
        × IsBestCount market.now.trades.items (count_utility market.now.trades.items (pos 1) (price_in prices.now) f
        (firm_of market.now f)) (own_counts market.now.trades.items best.sold.items best.bought.items f) value) }
{
    best_wide(alloc, market, prices)
}

/// The same of a wide market.
pub(crate) fn best_wide(
    alloc: Global,
    market: &UnitMarket,
    prices: &[i64],
) -> Result<BestCounts, OutOfMemory>
    requires market { IsWideMarket market.now }
    requires as_many { length prices.now ≡ length market.now.trades.items }
    requires small { (t : ℕ) → t < length prices.now → IsAtMost (price_in prices.now t) most_unit_price }
    ensures sold { IfOk result (λ best. length best.sold.items ≡ length market.now.trades.items) }
    ensures bought { IfOk result (λ best. length best.bought.items ≡ length market.now.trades.items) }
    ensures best { IfOk result (λ best. (f : ℕ) → f < market.now.firms → (value : ℤ)
        × IsBestCount market.now.trades.items (count_utility market.now.trades.items (pos 1) (price_in prices.now) f
        (firm_of market.now f)) (own_counts market.now.trades.items best.sold.items best.bought.items f) value) }
{
    let trades = market.trades.len() as u32;
    let nodes = trade_node(market, trades) + 1;
    let pins = pin_all(alloc, prices)?;
    let links = links_of(alloc, market, &pins)?;
    let mut finder = Finder::new(alloc, nodes)?;
    let levels = settled(alloc, &links, nodes, &mut finder)?;
    let place = trade_node(market, 0);
    let sold = levels_from(alloc, trades, &levels, place)?;
    let bought = levels_from(alloc, trades, &levels, place + trades)?;
    Ok(BestCounts { sold, bought })
}
