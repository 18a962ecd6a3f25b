//! The bundles of firms by counts.

ghost use Rattle.std.specs.Prelude.{◌≡◌, ◌≤◌, ◌++◌, [], ◌∷◌, cond, length, if◌then◌else◌, ◌==◌, nat_lt, IfOk, OnOk};
ghost use Rattle.tn_counts.specs.Widths.{most_unit_trades};
ghost use Rattle.tn_tree.specs.Lists.{own_counts};
ghost use Rattle.tn_unit_answers.specs.Bundles.{unit_bundle, units_to};

use std::alloc::Global;
use tn_base::OutOfMemory;
use tn_counts::UnitTrade;
use tn_said::{TradeUnits, UnitBundle};

/// How many units of a trade a firm has, by how many its seller sells and its buyer buys.
fn units_to(firm: u32, trade: UnitTrade, sold: u32, bought: u32) -> u32
    ensures { result ≡ units_to firm trade (if firm == trade.seller then sold else bought) }
{
    if firm == trade.seller {
        sold
    } else if firm == trade.buyer {
        bought
    } else {
        0
    }
}

/// Puts a trade with its units to a bundle, where there are some.
pub(crate) fn add_units(
    bundle: &mut Vec<TradeUnits>,
    trade: u32,
    units: u32,
) -> Result<(), OutOfMemory>
    ensures { OnOk result (bundle.new.items
        ≡ bundle.old.items ++ cond (nat_lt 0 units) (record { trade = trade; units = units } ∷ []) []) }
{
    if 0 < units {
        bundle.push(TradeUnits { trade, units })?;
    }
    Ok(())
}

/// The bundle of a firm that sells and buys so many units of its trades.
pub(crate) fn own_bundle(
    alloc: Global,
    trades: &[UnitTrade],
    firm: u32,
    sold: &[u32],
    bought: &[u32],
) -> Result<UnitBundle, OutOfMemory>
    requires few { length trades.now ≤ most_unit_trades }
    requires sold { length sold.now ≡ length trades.now }
    requires bought { length bought.now ≡ length trades.now }
    ensures { IfOk result (λ bundle. bundle ≡ unit_bundle trades.now firm (own_counts trades.now sold.now bought.now firm)) }
{
    let mut bundle = Vec::new(alloc);
    for t in 0..trades.len() {
        let units = units_to(firm, trades[t], sold[t], bought[t]);
        add_units(&mut bundle, t as u32, units)?;
    }
    Ok(UnitBundle::from_vec(bundle))
}
