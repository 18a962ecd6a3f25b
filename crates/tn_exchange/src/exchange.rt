//! The test of the exchange property, triple by triple.

ghost use Rattle.std.specs.Prelude.{◌≡◌, ◌^◌, ◌<◌, ◌≤◌, ◌↔◌, Some, length, IsTrue};
ghost use Rattle.std.specs.Option.{ForSome};
ghost use Rattle.tn_base.specs.Arcs.{IsAtMost};
ghost use Rattle.tn_base.specs.Firm.{up};
ghost use Rattle.tn_base.specs.Table.{buys_of};
ghost use Rattle.tn_base.specs.Exchange.{AreEnough, Exchanges, IsWrongAt, Fails, NoneFails};
ghost use Rattle.tn_exchange.specs.Rows.{firm_of_table, IsTableWithinLimits};
ghost use Rattle.tn_exchange.specs.TestOrder.{IsFirstFailure};
ghost use Rattle.tn_exchange.specs.Verdicts.{HasTotal, IfFails, IsVerdictOn, Swaps};
ghost use Rattle.tn_base.specs.Widths.{most_amount};
ghost use Rattle.tn_exchange.specs.Widths.{most_table_trades};

use crate::table::RawTable;
use crate::verdict::Verdict;
use tn_base::Bundle;

/// Whether a table meets exchange, and if not, the first failing triple in test order: the first bundle by descending
/// number, then the second by ascending number, then the position, ascending, with none as the last. It takes no
/// memory.
pub fn test(table: &RawTable) -> Verdict
    ensures holds { (result ≡ Verdict.Holds) ↔ NoneFails (firm_of_table table.now) }
    ensures first { IfFails result (IsFirstFailure (firm_of_table table.now)) }
    ensures within { IsTableWithinLimits table.now }
{
    let buys = table.buys();
    for bits in (0..table.bundles()).rev() {
        let x = Bundle::from_bits(bits);
        if let Some(first) = table.worth(x) {
            match test_from(table, buys, x, first) {
                Verdict::Holds => {}
                failed => return failed,
            }
        }
    }
    Verdict::Holds
}

/// Whether two bundles of own positions fail exchange at an own position, or at none. It takes no memory.
pub fn fails_at(table: &RawTable, x: Bundle, y: Bundle, at: Option<u32>) -> bool
    requires x_own { x < 2 ^ length table.now.sides }
    requires y_own { y < 2 ^ length table.now.sides }
    requires at_own { ForSome at (λ k. k < length table.now.sides) }
    ensures { IsTrue result ↔ Fails (firm_of_table table.now) x y at }
{
    match (table.worth(x), table.worth(y)) {
        (Some(first), Some(second)) => is_wrong_at(table, table.buys(), x, y, first + second, at),
        _ => false,
    }
}

/// The verdict on the triples with a possible bundle as their first.
fn test_from(table: &RawTable, buys: Bundle, x: Bundle, first: i128) -> Verdict
    requires bought { buys ≡ buys_of table.now.sides }
    requires own { x < 2 ^ length table.now.sides }
    requires worth { (firm_of_table table.now).worth x ≡ Some first }
    requires small { IsAtMost first most_amount }
    ensures { IsVerdictOn (firm_of_table table.now) (λ t. t.x ≡ x) result }
{
    for bits in 0..table.bundles() {
        let y = Bundle::from_bits(bits);
        if let Some(second) = table.worth(y) {
            match test_pair(table, buys, x, y, first + second) {
                Verdict::Holds => {}
                failed => return failed,
            }
        }
    }
    Verdict::Holds
}

/// The verdict on the triples with two possible bundles of this total: none of them fails, or the first that does, by
/// its position. It takes no memory.
pub fn test_pair(table: &RawTable, buys: Bundle, x: Bundle, y: Bundle, total: i128) -> Verdict
    requires bought { buys ≡ buys_of table.now.sides }
    requires x_own { x < 2 ^ length table.now.sides }
    requires y_own { y < 2 ^ length table.now.sides }
    requires total { HasTotal (firm_of_table table.now) x y total }
    ensures { IsVerdictOn (firm_of_table table.now) (λ t. (t.x ≡ x) × (t.y ≡ y)) result }
{
    for i in 0..table.trades() {
        if is_wrong_at(table, buys, x, y, total, Some(i)) {
            return Verdict::Fails { x, y, at: Some(i) };
        }
    }
    if is_wrong_at(table, buys, x, y, total, None) {
        return Verdict::Fails { x, y, at: None };
    }
    Verdict::Holds
}

/// What is wrong with two possible bundles of this total at a position, or at none.
fn is_wrong_at(
    table: &RawTable,
    buys: Bundle,
    x: Bundle,
    y: Bundle,
    total: i128,
    at: Option<u32>,
) -> bool
    requires few { length table.now.sides ≤ most_table_trades }
    requires bought { buys ≡ buys_of table.now.sides }
    requires x_own { x < 2 ^ length table.now.sides }
    requires y_own { y < 2 ^ length table.now.sides }
    requires at_own { ForSome at (λ k. k < length table.now.sides) }
    ensures { IsTrue result ↔ IsWrongAt (firm_of_table table.now) x y total at }
{
    match at {
        Some(i) => up(buys, x, y).has(i) && !exchanges(table, buys, x, y, total, i),
        None => x.net(buys) < y.net(buys) && !swaps(table, up(buys, y, x), x, y, total),
    }
}

/// Whether position `i` can be toggled in both bundles, alone or with a position of the down side.
fn exchanges(table: &RawTable, buys: Bundle, x: Bundle, y: Bundle, total: i128, i: u32) -> bool
    requires few { length table.now.sides ≤ most_table_trades }
    requires bought { buys ≡ buys_of table.now.sides }
    requires x_own { x < 2 ^ length table.now.sides }
    requires y_own { y < 2 ^ length table.now.sides }
    requires i_own { i < length table.now.sides }
    ensures { IsTrue result ↔ Exchanges (firm_of_table table.now) x y total i }
{
    let (moved_x, moved_y) = (x.toggle(i), y.toggle(i));
    swaps(table, up(buys, y, x), moved_x, moved_y, total)
        || (y.net(buys) < x.net(buys) && are_enough(table, moved_x, moved_y, total))
}

/// Whether some of the positions can be toggled in both bundles.
fn swaps(table: &RawTable, positions: Bundle, x: Bundle, y: Bundle, total: i128) -> bool
    requires positions_own { positions < 2 ^ length table.now.sides }
    requires x_own { x < 2 ^ length table.now.sides }
    requires y_own { y < 2 ^ length table.now.sides }
    ensures { IsTrue result ↔ Swaps (firm_of_table table.now) positions x y total }
{
    for k in 0..table.trades() {
        if positions.has(k) && are_enough(table, x.toggle(k), y.toggle(k), total) {
            return true;
        }
    }
    false
}

/// Whether two bundles of own positions are possible and together worth at least the total. It takes no memory.
pub fn are_enough(table: &RawTable, x: Bundle, y: Bundle, total: i128) -> bool
    requires x_own { x < 2 ^ length table.now.sides }
    requires y_own { y < 2 ^ length table.now.sides }
    ensures { IsTrue result ↔ AreEnough (firm_of_table table.now) x y total }
{
    match (table.worth(x), table.worth(y)) {
        (Some(first), Some(second)) => total <= first + second,
        _ => false,
    }
}

/// The purchases in x and not in y, and the sales in y and not in x.
fn up(buys: Bundle, x: Bundle, y: Bundle) -> Bundle
    ensures { result ≡ up buys x y }
{
    x.minus(y).meet(buys).union(y.minus(x).minus(buys))
}
