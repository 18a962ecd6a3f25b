//! The walk to the first triple, where the test by two and three trades fails.

ghost use Rattle.std.specs.Prelude.{◌≡◌, ◌+◌, ◌^◌, ◌<◌, ◌≤◌, ◌↔◌, ◌⊎◌, IsTrue, Some, length, if◌then◌else◌};
ghost use Rattle.tn_base.specs.Arcs.{IsAtMost};
ghost use Rattle.tn_base.specs.Sets.{toggle};
ghost use Rattle.tn_base.specs.Table.{buys_of};
ghost use Rattle.tn_firm_laws.specs.Places.{move, toggle_at, trade_level};
ghost use Rattle.tn_exchange.specs.Rows.{firm_of_table};
ghost use Rattle.tn_exchange.specs.Verdicts.{HasTotal, IsVerdictOn};
ghost use Rattle.tn_local.specs.Walk.{OfClose, IsReached, IsKnown, PairsAreEnough, with_one_more};
ghost use Rattle.tn_base.specs.Widths.{most_amount};

use tn_base::Bundle;
use tn_exchange::{RawTable, Verdict, are_enough, test_pair};

/// Up to two own positions, the higher one first; the count of the trades stands for none.
#[derive(Clone, Copy)]
pub(crate) struct Two {
    pub(crate) first: u32,
    pub(crate) second: u32,
}

/// The positions of the up side and of the down side at which a bundle was toggled.
#[derive(Clone, Copy)]
pub(crate) struct Sides {
    pub(crate) up: Two,
    pub(crate) down: Two,
}

/// The verdict on the triples of `x` and of the close bundles that agree with `y` from position `k` on.
pub(crate) fn test_close(
    table: &RawTable,
    buys: Bundle,
    x: Bundle,
    first: i128,
    y: Bundle,
    k: u32,
    sides: Option<Sides>,
) -> Verdict
    requires bought { buys ≡ buys_of table.now.sides }
    requires own { x < 2 ^ length table.now.sides }
    requires worth { (firm_of_table table.now).worth x ≡ Some first }
    requires small { IsAtMost first most_amount }
    requires position { k ≤ length table.now.sides }
    requires known { IsKnown (length table.now.sides) buys x y k sides }
    ensures { IsVerdictOn (firm_of_table table.now) (OfClose (firm_of_table table.now) x y k) result }
{
    match sides {
        Some(sides) => {
            if k == 0 {
                return test_reached(table, buys, x, first, y, sides);
            }
            let (null, at) = (table.trades(), k - 1);
            // whatever else is toggled, `y` is close no more
            if sides.up.second != null && sides.down.second != null {
                return test_reached(table, buys, x, first, y, sides);
            }
            let further = further(buys, x, y, at, null, sides);
            let toggled = y.toggle(at);
            // the bundles without the position come first
            if x.has(at) {
                match test_close(table, buys, x, first, toggled, at, further) {
                    Verdict::Holds => test_close(table, buys, x, first, y, at, Some(sides)),
                    failed => failed,
                }
            } else {
                match test_close(table, buys, x, first, y, at, Some(sides)) {
                    Verdict::Holds => test_close(table, buys, x, first, toggled, at, further),
                    failed => failed,
                }
            }
        }
        None => Verdict::Holds,
    }
}

/// The sides after `y` is toggled at position `k` too, or none where one of them has two positions already.
fn further(buys: Bundle, x: Bundle, y: Bundle, k: u32, null: u32, sides: Sides) -> Option<Sides>
    requires few { null ≤ 64 }
    requires own { x < 2 ^ null }
    requires position { k < null }
    requires reached { IsReached null buys x y (k + 1) sides }
    ensures toggled { IsKnown null buys x (toggle y k) k result }
    ensures same { IsReached null buys x y k sides }
{
    if is_high(buys, x, k) {
        match one_more(sides.up, k, null) {
            Some(up) => Some(Sides {
                up,
                down: sides.down,
            }),
            None => None,
        }
    } else {
        match one_more(sides.down, k, null) {
            Some(down) => Some(Sides { up: sides.up, down }),
            None => None,
        }
    }
}

/// Whether a position has level 1: a purchase in the bundle, or a sale outside it.
fn is_high(buys: Bundle, x: Bundle, k: u32) -> bool
    requires { k < 64 }
    ensures { trade_level buys x k ≡ (if result then 1 else 0) }
{
    if buys.has(k) { x.has(k) } else { !x.has(k) }
}

/// The two positions with one more, or none where there are two.
fn one_more(two: Two, k: u32, null: u32) -> Option<Two>
    ensures { result ≡ with_one_more two k null }
{
    if two.first == null {
        Some(Two {
            first: k,
            second: null,
        })
    } else if two.second == null {
        Some(Two {
            first: two.first,
            second: k,
        })
    } else {
        None
    }
}

/// The verdict on the triples of `x` and `y`, if they are close.
fn test_reached(
    table: &RawTable,
    buys: Bundle,
    x: Bundle,
    first: i128,
    y: Bundle,
    sides: Sides,
) -> Verdict
    requires bought { buys ≡ buys_of table.now.sides }
    requires own { x < 2 ^ length table.now.sides }
    requires worth { (firm_of_table table.now).worth x ≡ Some first }
    requires small { IsAtMost first most_amount }
    requires reached { IsReached (length table.now.sides) buys x y 0 sides }
    ensures { IsVerdictOn (firm_of_table table.now) (OfClose (firm_of_table table.now) x y 0) result }
{
    let null = table.trades();
    if sides.up.second == null && sides.down.second == null {
        return Verdict::Holds;
    }
    match table.worth(y) {
        Some(second) => test_reached_pair(table, buys, x, y, first + second, sides),
        None => Verdict::Holds,
    }
}

/// The verdict on the triples of two possible bundles of this total that are close.
fn test_reached_pair(
    table: &RawTable,
    buys: Bundle,
    x: Bundle,
    y: Bundle,
    total: i128,
    sides: Sides,
) -> Verdict
    requires bought { buys ≡ buys_of table.now.sides }
    requires own { x < 2 ^ length table.now.sides }
    requires total { HasTotal (firm_of_table table.now) x y total }
    requires reached { IsReached (length table.now.sides) buys x y 0 sides }
    requires close { (sides.up.second < length table.now.sides) ⊎ (sides.down.second < length table.now.sides) }
    ensures { IsVerdictOn (firm_of_table table.now) (λ t. (t.x ≡ x) × (t.y ≡ y)) result }
{
    // most pairs are done with here; the test of the pair finds the position
    if pairs_are_enough(table, x, total, sides) {
        Verdict::Holds
    } else {
        test_pair(table, buys, x, y, total)
    }
}

/// Whether the places of the two sides can be exchanged in pairs, in one way or the other.
fn pairs_are_enough(table: &RawTable, x: Bundle, total: i128, sides: Sides) -> bool
    requires own { x < 2 ^ length table.now.sides }
    ensures { IsTrue result ↔ PairsAreEnough (firm_of_table table.now) x total sides }
{
    let null = table.trades();
    let (up, down) = (sides.up, sides.down);
    are_enough(
        table,
        moved(x, up.first, down.first, null),
        moved(x, up.second, down.second, null),
        total,
    ) || are_enough(
        table,
        moved(x, up.first, down.second, null),
        moved(x, up.second, down.first, null),
        total,
    )
}

/// The bundle toggled at two places.
fn moved(x: Bundle, i: u32, j: u32, null: u32) -> Bundle
    requires few { null ≤ 64 }
    ensures moved { result ≡ move null x i j }
    ensures own { x < 2 ^ null → result < 2 ^ null }
{
    toggled_at(toggled_at(x, i, null), j, null)
}

/// The bundle toggled at a place: nothing is toggled at null.
fn toggled_at(x: Bundle, k: u32, null: u32) -> Bundle
    requires few { null ≤ 64 }
    ensures { result ≡ toggle_at null x k }
{
    if k < null { x.toggle(k) } else { x }
}
