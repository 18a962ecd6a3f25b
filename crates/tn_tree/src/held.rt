//! What firms have by counts at given prices, and the best they could have.

ghost use Rattle.std.specs.Prelude.{◌≡◌, ℕ, ◌+◌, ◌<◌, ◌≤◌, suc, ℤ, pos, ◌+ℤ◌, ◌-ℤ◌, ◌*ℤ◌, length, map, get_or, slice_get, Some, None, IfOk, option_map};
ghost use Rattle.std.specs.List.{range_with_len};
ghost use Rattle.tn_base.specs.Arcs.{IsAtMost};
ghost use Rattle.tn_counts.specs.Counts.{AreCounts, trade_at};
ghost use Rattle.tn_counts.specs.Laminar.{amounts_at, firm_of};
ghost use Rattle.tn_counts.specs.Markets.{IsUnitMarket, IsWideMarket};
ghost use Rattle.tn_counts.specs.Tree.{null_node};
ghost use Rattle.tn_counts.specs.declared.trade.UnitAmounts.{UnitAmounts};
ghost use Rattle.tn_counts.specs.Widths.{most_unit_price, most_unit_surplus, most_wide_trades};
ghost use Rattle.tn_tree.specs.declared.held.FirmCount.{FirmCount};
ghost use Rattle.tn_tree.specs.Held.{AreKept, AreSmallValues, AreValues, IsHeld, IsHeldAt, IsKept, firm_count, gain_at};
ghost use Rattle.tn_tree.specs.Lists.{count_in, own_counts, price_in, rate_of};
ghost use Rattle.tn_tree.specs.Nets.{HaveTree, most_count_worth, most_paid};

use crate::best::{BestCounts, best_wide};
use crate::build::links_of;
use crate::worths::{amount_sums, sum, worths_by};
use std::alloc::Global;
use tn_base::OutOfMemory;
use tn_counts::{UnitAmounts, UnitMarket, UnitTrade};
use tn_links::Links;

/// What a firm has by counts at given prices, and the best it could have.
#[derive(Clone, Copy, PartialEq, Eq)]
pub struct FirmCount {
    /// What its counts are worth to it, None where they are impossible.
    pub worth: Option<i128>,
    /// Their worth and what is paid for them.
    pub utility: Option<i128>,
    /// The greatest utility that counts have.
    pub best: i128,
    /// How much more that is than the utility of its own counts.
    pub gain: Option<i128>,
}

/// What is said of each firm, by firm number, and the best counts of all.
#[derive(Drop)]
pub struct HeldCounts {
    pub firms: Vec<FirmCount>,
    /// The best counts of each firm: its own where none have more utility.
    pub best: BestCounts,
}

/// Prices as amounts: a unit adds its price to what its seller has, and takes it from its buyer.
fn rates_of(alloc: Global, prices: &[i64]) -> Result<Vec<UnitAmounts>, OutOfMemory>
    requires few { length prices.now ≤ most_wide_trades }
    requires small { (t : ℕ) → t < length prices.now → IsAtMost (price_in prices.now t) most_unit_price }
    ensures { IfOk result (λ rates. rates.items ≡ map (rate_of prices.now) (range_with_len 0 (length prices.now))) }
{
    let mut rates = Vec::new(alloc);
    for t in 0..prices.len() {
        rates.push(UnitAmounts {
            seller: prices[t],
            buyer: -prices[t],
        })?;
    }
    Ok(rates)
}

/// A worth, and what is paid, None where the worth is none.
fn value_of(worth: Option<i128>, paid: i128) -> Option<i128>
    requires worth { (value : ℤ) → worth ≡ Some value → IsAtMost value most_count_worth }
    requires paid { IsAtMost paid most_paid }
    ensures { result ≡ option_map (λ value. pos 1 *ℤ value +ℤ paid) worth }
{
    match worth {
        Some(value) => Some(sum(value, paid)),
        None => None,
    }
}

/// The utility of each firm's counts, by their worths and what is paid for them.
fn utilities(
    alloc: Global,
    worths: &[Option<i128>],
    paid: &[i128],
) -> Result<Vec<Option<i128>>, OutOfMemory>
    requires as_many { length paid.now ≡ length worths.now }
    requires worths { (f : ℕ) (value : ℤ) → get_or worths.now f None ≡ Some value → IsAtMost value most_count_worth }
    requires paid { (f : ℕ) → IsAtMost (get_or paid.now f (pos 0)) most_paid }
    ensures { IfOk result (λ utilities. utilities.items ≡ map (λ f. option_map (λ value. pos 1 *ℤ value
        +ℤ get_or paid.now f (pos 0)) (get_or worths.now f None)) (range_with_len 0 (length worths.now))) }
{
    let mut utilities = Vec::new(alloc);
    for f in 0..worths.len() {
        utilities.push(value_of(worths[f], paid[f]))?;
    }
    Ok(utilities)
}

/// The count of a firm that gains nothing is its own.
fn keep_one(gain: Option<i128>, own: u32, best: u32) -> u32
    ensures { IsKept gain own best result }
{
    match gain {
        Some(0) => own,
        _ => best,
    }
}

/// What one number lacks to another.
fn lacked(value: i128, best: i128) -> i128
    requires value { IsAtMost value (most_count_worth + most_paid) }
    requires best { IsAtMost best (most_count_worth + most_paid) }
    ensures { result ≡ best -ℤ value }
{
    best - value
}

/// What a firm would gain, None where its own utility is none.
fn gain_of(utility: Option<i128>, best: i128) -> Option<i128>
    requires utility { (value : ℤ) → utility ≡ Some value → IsAtMost value (most_count_worth + most_paid) }
    requires best { IsAtMost best (most_count_worth + most_paid) }
    ensures { result ≡ option_map (λ value. best -ℤ value) utility }
{
    match utility {
        Some(value) => Some(lacked(value, best)),
        None => None,
    }
}

/// What is said of a firm by the worth of its counts, their utility and the best one.
fn firm_count(worth: Option<i128>, utility: Option<i128>, best: Option<i128>) -> FirmCount
    requires utility { (value : ℤ) → utility ≡ Some value → IsAtMost value (most_count_worth + most_paid) }
    requires best { (value : ℤ) → best ≡ Some value → IsAtMost value (most_count_worth + most_paid) }
    ensures { result ≡ firm_count worth utility best }
{
    let best = best.unwrap_or(0);
    FirmCount {
        worth,
        utility,
        best,
        gain: gain_of(utility, best),
    }
}

/// What is said of each firm.
fn firm_counts(
    alloc: Global,
    worths: &[Option<i128>],
    utilities: &[Option<i128>],
    bests: &[Option<i128>],
) -> Result<Vec<FirmCount>, OutOfMemory>
    requires all { length utilities.now ≡ length worths.now }
    requires each { length bests.now ≡ length worths.now }
    requires utilities { (f : ℕ) (value : ℤ) → get_or utilities.now f None ≡ Some value
        → IsAtMost value (most_count_worth + most_paid) }
    requires bests { (f : ℕ) (value : ℤ) → get_or bests.now f None ≡ Some value
        → IsAtMost value (most_count_worth + most_paid) }
    ensures { IfOk result (λ firms. firms.items ≡ map (λ f. firm_count (get_or worths.now f None)
        (get_or utilities.now f None) (get_or bests.now f None)) (range_with_len 0 (length worths.now))) }
{
    let mut firms = Vec::new(alloc);
    for f in 0..worths.len() {
        firms.push(firm_count(worths[f], utilities[f], bests[f]))?;
    }
    Ok(firms)
}

/// The counts of one end of all trades: where the firm of that end gains nothing its own, else the best ones.
fn kept(
    alloc: Global,
    firms: &[FirmCount],
    ends: &[u32],
    counts: &[u32],
    best: &[u32],
) -> Result<Vec<u32>, OutOfMemory>
    requires counts { length counts.now ≡ length ends.now }
    requires best { length best.now ≡ length ends.now }
    requires ends { (t : ℕ) → t < length ends.now → get_or ends.now t 0 < length firms.now }
    ensures sized { IfOk result (λ kept. length kept.items ≡ length ends.now) }
    ensures kept { IfOk result (λ kept. (t : ℕ) → t < length ends.now
        → IsKept (gain_at firms.now (get_or ends.now t 0)) (count_in counts.now t) (count_in best.now t)
        (count_in kept.items t)) }
{
    let mut kept = Vec::new(alloc);
    for t in 0..ends.len() {
        let firm = firms[ends[t] as usize];
        kept.push(keep_one(firm.gain, counts[t], best[t]))?;
    }
    Ok(kept)
}

/// The sellers of trades.
fn sellers(alloc: Global, trades: &[UnitTrade]) -> Result<Vec<u32>, OutOfMemory>
    ensures { IfOk result (λ ends. ends.items ≡ map (λ trade. trade.seller) trades.now) }
{
    Ok(trades.iter().map(|trade| trade.seller).collect(alloc)?)
}

/// The buyers of trades.
fn buyers(alloc: Global, trades: &[UnitTrade]) -> Result<Vec<u32>, OutOfMemory>
    ensures { IfOk result (λ ends. ends.items ≡ map (λ trade. trade.buyer) trades.now) }
{
    Ok(trades.iter().map(|trade| trade.buyer).collect(alloc)?)
}

/// The best counts, of which those of a firm that gains nothing are its own.
fn keep_own(
    alloc: Global,
    market: &UnitMarket,
    firms: &[FirmCount],
    counts: &[u32],
    best: &BestCounts,
) -> Result<BestCounts, OutOfMemory>
    requires market { IsWideMarket market.now }
    requires firms { length firms.now ≡ market.now.firms }
    requires counts { length counts.now ≡ length market.now.trades.items }
    requires sold { length best.now.sold.items ≡ length market.now.trades.items }
    requires bought { length best.now.bought.items ≡ length market.now.trades.items }
    ensures sold { IfOk result (λ kept. length kept.sold.items ≡ length market.now.trades.items) }
    ensures bought { IfOk result (λ kept. length kept.bought.items ≡ length market.now.trades.items) }
    ensures kept { IfOk result (λ kept. AreKept market.now.trades.items firms.now counts.now best.now.sold.items
        best.now.bought.items kept.sold.items kept.bought.items) }
{
    let ends = sellers(alloc, &market.trades)?;
    let sold = kept(alloc, firms, &ends, counts, &best.sold)?;
    let ends = buyers(alloc, &market.trades)?;
    let bought = kept(alloc, firms, &ends, counts, &best.bought)?;
    Ok(BestCounts { sold, bought })
}

/// The worths of each firm's counts, and their utilities.
#[derive(Drop)]
struct Values {
    worths: Vec<Option<i128>>,
    utilities: Vec<Option<i128>>,
}

/// What each firm's counts are worth, and their utilities at prices, which are given as amounts.
fn values_of(
    alloc: Global,
    market: &UnitMarket,
    links: &Links,
    rates: &[UnitAmounts],
    sold: &[u32],
    bought: &[u32],
) -> Result<Values, OutOfMemory>
    requires market { IsWideMarket market.now }
    requires tree { HaveTree market.now links.now.links.items }
    requires nodes { links.now.nodes ≡ suc (null_node market.now) }
    requires as_many { length rates.now ≡ length market.now.trades.items }
    requires small { (t : ℕ) (each : UnitAmounts) → slice_get rates.now t ≡ Some each
        → IsAtMost each.seller most_unit_price × IsAtMost each.buyer most_unit_price }
    requires sold_all { length sold.now ≡ length market.now.trades.items }
    requires bought_all { length bought.now ≡ length market.now.trades.items }
    requires sold { AreCounts market.now.trades.items (count_in sold.now) }
    requires bought { AreCounts market.now.trades.items (count_in bought.now) }
    ensures values { IfOk result (λ values. AreValues market.now rates.now sold.now bought.now values.worths.items
        values.utilities.items) }
    ensures worths { IfOk result (λ values. length values.worths.items ≡ market.now.firms) }
    ensures utilities { IfOk result (λ values. length values.utilities.items ≡ market.now.firms) }
    ensures small_worths { IfOk result (λ values. (f : ℕ) (value : ℤ) → get_or values.worths.items f None ≡ Some value
        → IsAtMost value most_count_worth) }
    ensures small_utilities { IfOk result (λ values. AreSmallValues values.utilities.items) }
{
    let worths = worths_by(alloc, market, links, sold, bought)?;
    let paid = amount_sums(alloc, market, rates, sold, bought)?;
    let utilities = utilities(alloc, &worths, &paid)?;
    Ok(Values { worths, utilities })
}

/// What each firm has by counts of the trades' units at given prices, and the best counts that it could have, of a market
/// with as many trades again as others, and with any numbers that links take. The counts are within the units of each
/// trade, and prices are at most 2 * 10^11 in size. It fails only where memory runs out.
pub fn hold_wide(
    alloc: Global,
    market: &UnitMarket,
    counts: &[u32],
    prices: &[i64],
) -> Result<HeldCounts, OutOfMemory>
    requires market { IsWideMarket market.now }
    requires counted { length counts.now ≡ length market.now.trades.items }
    requires within { AreCounts market.now.trades.items (count_in counts.now) }
    requires priced { length prices.now ≡ length market.now.trades.items }
    requires small { (t : ℕ) → t < length prices.now → IsAtMost (price_in prices.now t) most_unit_price }
    ensures firms { IfOk result (λ held. length held.firms.items ≡ market.now.firms) }
    ensures sold { IfOk result (λ held. length held.best.sold.items ≡ length market.now.trades.items) }
    ensures bought { IfOk result (λ held. length held.best.bought.items ≡ length market.now.trades.items) }
    ensures held { IfOk result (λ held. (f : ℕ) (said : FirmCount) → slice_get held.firms.items f ≡ Some said
        → IsHeldAt market.now.trades.items f (firm_of market.now f) counts.now prices.now held.best.sold.items
        held.best.bought.items said) }
{
    let links = links_of(alloc, market, &[])?;
    let rates = rates_of(alloc, prices)?;
    let own = values_of(alloc, market, &links, &rates, counts, counts)?;
    let best = best_wide(alloc, market, prices)?;
    let most = values_of(alloc, market, &links, &rates, &best.sold, &best.bought)?;
    let firms = firm_counts(alloc, &own.worths, &own.utilities, &most.utilities)?;
    let best = keep_own(alloc, market, &firms, counts, &best)?;
    Ok(HeldCounts { firms, best })
}

/// What each firm has by counts of the trades' units at given prices, and the best counts that it could have. The counts
/// are within the units of each trade, and prices are at most 2 * 10^11 in size. It fails only where memory runs out.
#[tactic(auto, using(tn_counts::proofs::WideLemmas::wide_market))]
pub fn hold_counts(
    alloc: Global,
    market: &UnitMarket,
    counts: &[u32],
    prices: &[i64],
) -> Result<HeldCounts, OutOfMemory>
    requires market { IsUnitMarket market.now }
    requires counted { length counts.now ≡ length market.now.trades.items }
    requires within { AreCounts market.now.trades.items (count_in counts.now) }
    requires priced { length prices.now ≡ length market.now.trades.items }
    requires small { (t : ℕ) → t < length prices.now → IsAtMost (price_in prices.now t) most_unit_price }
    ensures firms { IfOk result (λ held. length held.firms.items ≡ market.now.firms) }
    ensures sold { IfOk result (λ held. length held.best.sold.items ≡ length market.now.trades.items) }
    ensures bought { IfOk result (λ held. length held.best.bought.items ≡ length market.now.trades.items) }
    ensures held { IfOk result (λ held. (f : ℕ) (said : FirmCount) → slice_get held.firms.items f ≡ Some said
        → IsHeld market.now.trades.items f (firm_of market.now f) counts.now prices.now held.best.sold.items
        held.best.bought.items said) }
{
    hold_wide(alloc, market, counts, prices)
}
