//! The least sets around trades and around sets.

ghost use Rattle.std.specs.Prelude.{◌≡◌, ◌<◌, ◌-◌, ◌+◌, ◌≤◌, ◌==◌, ◌&&◌, length, Some, slice_get};
ghost use Rattle.tn_counts.specs.declared.set.CountSet.{CountSet};
ghost use Rattle.tn_counts.specs.Laminar.{holds};
ghost use Rattle.tn_counts.specs.Markets.{IsWideMarket};
ghost use Rattle.tn_counts.specs.Tree.{first_from, inner_node, node_above, null_node, root_node, trade_node};
ghost use Rattle.tn_counts.specs.Widths.{most_count_sets};

use tn_counts::{CountSet, UnitMarket};

/// Whether a set is one of a firm and has a trade.
fn is_around(set: &CountSet, firm: u32, trade: u32) -> bool
    ensures { result ≡ (firm == set.now.firm && holds set.now trade) }
{
    firm == set.firm && set.members.contains(&trade)
}

/// The first set from a number on that is one of a firm and has a trade, else the given root.
fn first_from(sets: &[CountSet], firm: u32, trade: u32, root: u32, from: u32) -> u32
    requires few { length sets.now ≤ most_count_sets }
    requires inside { from ≤ length sets.now }
    ensures { result ≡ first_from sets.now firm trade root (length sets.now - from) from }
{
    for i in from..sets.len() as u32 {
        if is_around(&sets[i as usize], firm, trade) {
            return i;
        }
    }
    root
}

/// The node of a firm's root.
pub(crate) fn root_node(market: &UnitMarket, firm: u32) -> u32
    requires market { IsWideMarket market.now }
    requires known { firm < market.now.firms }
    ensures { result ≡ root_node market.now firm }
{
    market.sets.len() as u32 + firm
}

/// The node of a trade, or of null after the last one.
pub(crate) fn trade_node(market: &UnitMarket, trade: u32) -> u32
    requires market { IsWideMarket market.now }
    requires known { trade ≤ length market.now.trades.items }
    ensures { result ≡ trade_node market.now trade }
{
    market.sets.len() as u32 + market.firms + trade
}

/// The node at which a trade stands at a firm.
pub(crate) fn inner_node(market: &UnitMarket, firm: u32, trade: u32) -> u32
    requires market { IsWideMarket market.now }
    requires known { firm < market.now.firms }
    ensures { result ≡ inner_node market.now firm trade }
{
    first_from(&market.sets, firm, trade, root_node(market, firm), 0)
}

/// The node above a set.
pub(crate) fn node_above(market: &UnitMarket, i: u32) -> u32
    requires market { IsWideMarket market.now }
    requires inside { i < length market.now.sets.items }
    ensures { (set : CountSet) → slice_get market.now.sets.items i ≡ Some set
        → result ≡ node_above market.now i set.firm set.members.items }
{
    let set = &market.sets[i as usize];
    let root = root_node(market, set.firm);
    if set.members.is_empty() {
        return root;
    }
    first_from(&market.sets, set.firm, set.members[0], root, i + 1)
}
