//! The net counts within sets, by what flows into the nodes of a market.

ghost use Rattle.std.specs.Prelude.{◌≡◌, ℕ, suc, ◌<◌, ◌≤◌, ℤ, pos, ◌+ℤ◌, ◌-ℤ◌, length, get_or, set, OnOk, IfOk, ◌==◌, if◌then◌else◌};
ghost use Rattle.tn_base.specs.Arcs.{IsAtMost};
ghost use Rattle.tn_links.specs.Totals.{total};
ghost use Rattle.tn_counts.specs.Counts.{AreCounts, trade_at};
ghost use Rattle.tn_counts.specs.Markets.{IsWideMarket};
ghost use Rattle.tn_counts.specs.Tree.{inner_node, null_node, root_node};
ghost use Rattle.tn_counts.proofs.ClimbLemmas.{above};
ghost use Rattle.tn_tree.specs.Lists.{count_in};
ghost use Rattle.tn_tree.specs.Nets.{HaveTree, end_at, firm_net, most_sum, net_at};

use crate::around::trade_node;
use std::alloc::Global;
use tn_base::OutOfMemory;
use tn_counts::UnitMarket;
use tn_links::Links;

/// So many zeros.
pub(crate) fn zeros(alloc: Global, count: u32) -> Result<Vec<i128>, OutOfMemory>
    ensures sized { IfOk result (λ numbers. length numbers.items ≡ count) }
    ensures zeros { IfOk result (λ numbers. (v : ℕ) → get_or numbers.items v (pos 0) ≡ pos 0) }
{
    let mut numbers = Vec::new(alloc);
    for _ in 0..count {
        numbers.push(0)?;
    }
    Ok(numbers)
}

/// Adds to the number at a place.
pub(crate) fn add_at(numbers: &mut Vec<i128>, place: u32, more: i128)
    requires inside { place < length numbers.old.items }
    requires before { IsAtMost (get_or numbers.old.items place (pos 0)) most_sum }
    requires more { IsAtMost more most_sum }
    ensures { numbers.new.items ≡ set numbers.old.items place (get_or numbers.old.items place (pos 0) +ℤ more) }
{
    numbers[place as usize] += more;
}

/// Adds units to the number at a place.
fn bring(numbers: &mut Vec<i128>, place: u32, units: u32)
    requires inside { place < length numbers.old.items }
    requires before { IsAtMost (get_or numbers.old.items place (pos 0)) most_sum }
    ensures { numbers.new.items ≡ set numbers.old.items place (get_or numbers.old.items place (pos 0) +ℤ pos units) }
{
    numbers[place as usize] += i128::from(units);
}

/// Takes units from the number at a place.
fn take(numbers: &mut Vec<i128>, place: u32, units: u32)
    requires inside { place < length numbers.old.items }
    requires before { IsAtMost (get_or numbers.old.items place (pos 0)) most_sum }
    ensures { numbers.new.items ≡ set numbers.old.items place (get_or numbers.old.items place (pos 0) -ℤ pos units) }
{
    numbers[place as usize] -= i128::from(units);
}

/// Adds the number at one place to that at another.
fn bring_up(numbers: &mut Vec<i128>, from: u32, to: u32)
    requires from { from < length numbers.old.items }
    requires to { to < length numbers.old.items }
    requires more { IsAtMost (get_or numbers.old.items from (pos 0)) most_sum }
    requires before { IsAtMost (get_or numbers.old.items to (pos 0)) most_sum }
    ensures { numbers.new.items
        ≡ set numbers.old.items to (get_or numbers.old.items to (pos 0) +ℤ get_or numbers.old.items from (pos 0)) }
{
    let more = numbers[from as usize];
    numbers[to as usize] += more;
}

/// The node at which a trade stands at its seller, by its link.
fn seller_end(market: &UnitMarket, links: &Links, t: u32) -> u32
    requires market { IsWideMarket market.now }
    requires tree { HaveTree market.now links.now.links.items }
    requires known { t < length market.now.trades.items }
    ensures node { result ≡ inner_node market.now (trade_at market.now.trades.items t).seller t }
    ensures inside { result < links.now.nodes }
{
    links.ends(trade_node(market, t)).0
}

/// The node at which a trade stands at its buyer, by its link.
fn buyer_end(market: &UnitMarket, links: &Links, t: u32) -> u32
    requires market { IsWideMarket market.now }
    requires tree { HaveTree market.now links.now.links.items }
    requires known { t < length market.now.trades.items }
    ensures node { result ≡ inner_node market.now (trade_at market.now.trades.items t).buyer t }
    ensures inside { result < links.now.nodes }
{
    links
        .ends(trade_node(market, t) + market.trades.len() as u32)
        .1
}

/// The node above a set, by its link.
fn set_end(market: &UnitMarket, links: &Links, i: u32) -> u32
    requires tree { HaveTree market.now links.now.links.items }
    requires known { i < length market.now.sets.items }
    ensures node { result ≡ above market.now i }
    ensures inside { result < links.now.nodes }
{
    links.ends(i).1
}

/// What the ends of all trades bring to each node.
fn ends_in(
    alloc: Global,
    market: &UnitMarket,
    links: &Links,
    sold: &[u32],
    bought: &[u32],
) -> Result<Vec<i128>, OutOfMemory>
    requires market { IsWideMarket market.now }
    requires tree { HaveTree market.now links.now.links.items }
    requires nodes { links.now.nodes ≡ suc (null_node market.now) }
    requires sold_all { length sold.now ≡ length market.now.trades.items }
    requires bought_all { length bought.now ≡ length market.now.trades.items }
    requires sold { AreCounts market.now.trades.items (count_in sold.now) }
    requires bought { AreCounts market.now.trades.items (count_in bought.now) }
    ensures sized { IfOk result (λ nets. length nets.items ≡ suc (null_node market.now)) }
    ensures nets { IfOk result (λ nets. (v : ℕ) → get_or nets.items v (pos 0)
        ≡ total (end_at market.now sold.now bought.now v) (length market.now.trades.items)) }
{
    let trades = market.trades.len() as u32;
    let mut nets = zeros(alloc, trade_node(market, trades) + 1)?;
    for t in 0..trades {
        bring(&mut nets, buyer_end(market, links, t), bought[t as usize]);
        take(&mut nets, seller_end(market, links, t), sold[t as usize]);
    }
    Ok(nets)
}

/// What flows into each node by counts of what is sold and bought: the net count of a set at its node, and what a firm
/// buys less what it sells at its root.
pub(crate) fn nets_of(
    alloc: Global,
    market: &UnitMarket,
    links: &Links,
    sold: &[u32],
    bought: &[u32],
) -> Result<Vec<i128>, OutOfMemory>
    requires market { IsWideMarket market.now }
    requires tree { HaveTree market.now links.now.links.items }
    requires nodes { links.now.nodes ≡ suc (null_node market.now) }
    requires sold_all { length sold.now ≡ length market.now.trades.items }
    requires bought_all { length bought.now ≡ length market.now.trades.items }
    requires sold { AreCounts market.now.trades.items (count_in sold.now) }
    requires bought { AreCounts market.now.trades.items (count_in bought.now) }
    ensures sized { IfOk result (λ nets. length nets.items ≡ suc (null_node market.now)) }
    ensures sets { IfOk result (λ nets. (i : ℕ) → i < length market.now.sets.items
        → get_or nets.items i (pos 0) ≡ net_at market.now sold.now bought.now i) }
    ensures roots { IfOk result (λ nets. (f : ℕ) → f < market.now.firms
        → get_or nets.items (root_node market.now f) (pos 0) ≡ firm_net market.now sold.now bought.now f) }
{
    let mut nets = ends_in(alloc, market, links, sold, bought)?;
    for i in 0..market.sets.len() as u32 {
        bring_up(&mut nets, i, set_end(market, links, i));
    }
    Ok(nets)
}
