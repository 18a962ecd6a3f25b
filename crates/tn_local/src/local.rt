//! The exchange test of tables whose every bundle is possible.

ghost use Rattle.std.specs.Prelude.{◌≡◌, ◌^◌, ◌<◌, ◌↔◌, Some, length};
ghost use Rattle.tn_base.specs.Arcs.{IsAtMost};
ghost use Rattle.tn_base.specs.Every.{HasEveryBundle};
ghost use Rattle.tn_base.specs.Exchange.{NoneFails};
ghost use Rattle.tn_base.specs.Table.{buys_of};
ghost use Rattle.tn_firm_laws.specs.Close.{AreClose};
ghost use Rattle.tn_exchange.specs.Rows.{firm_of_table, IsTableWithinLimits};
ghost use Rattle.tn_exchange.specs.Verdicts.{IfFails, IsVerdictOn};
ghost use Rattle.tn_local.specs.First.{IsFirstCloseFailure};
ghost use Rattle.tn_base.specs.Widths.{most_amount};

use crate::quads::quads_exchange;
use crate::walk::{Sides, Two, test_close};
use tn_base::Bundle;
use tn_exchange::{RawTable, Verdict};

/// Whether a table whose every bundle is possible meets exchange, and if not, the first failing triple in test order of
/// those with close bundles. It takes no memory.
pub fn local_test(table: &RawTable) -> Verdict
    requires { HasEveryBundle (firm_of_table table.now) }
    ensures holds { (result ≡ Verdict.Holds) ↔ NoneFails (firm_of_table table.now) }
    ensures first { IfFails result (IsFirstCloseFailure (firm_of_table table.now)) }
    ensures within { IsTableWithinLimits table.now }
{
    let buys = table.buys();
    // that a table meets exchange shows soonest so
    if quads_exchange(table) {
        return Verdict::Holds;
    }
    for bits in (0..table.bundles()).rev() {
        let x = Bundle::from_bits(bits);
        if let Some(first) = table.worth(x) {
            match test_from(table, buys, x, first) {
                Verdict::Holds => {}
                failed => return failed,
            }
        }
    }
    Verdict::Holds
}

/// The verdict on the triples with a possible bundle as their first and a close one as their second.
fn test_from(table: &RawTable, buys: Bundle, x: Bundle, first: i128) -> Verdict
    requires bought { buys ≡ buys_of table.now.sides }
    requires own { x < 2 ^ length table.now.sides }
    requires worth { (firm_of_table table.now).worth x ≡ Some first }
    requires small { IsAtMost first most_amount }
    ensures { IsVerdictOn (firm_of_table table.now) (λ t. (t.x ≡ x) × AreClose (buys_of table.now.sides) x t.y) result }
{
    let null = table.trades();
    let none = Two {
        first: null,
        second: null,
    };
    let sides = Sides {
        up: none,
        down: none,
    };
    test_close(table, buys, x, first, x, null, Some(sides))
}
