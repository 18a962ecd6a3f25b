//! The exchange test of a table of any size.

ghost use Rattle.std.specs.Prelude.{◌≡◌, ◌↔◌};
ghost use Rattle.tn_base.specs.Exchange.{NoneFails};
ghost use Rattle.tn_exchange.specs.Rows.{firm_of_table, IsTableWithinLimits};
ghost use Rattle.tn_exchange.specs.Verdicts.{IfFails};
ghost use Rattle.tn_local.specs.First.{IsFullIfLarge, IsFirstTriple};

use crate::local::local_test;
use tn_exchange::{RawTable, Verdict, test};

/// Whether a table meets exchange, and if not, its first triple. A table of more than 10 sides has every bundle. A full
/// table is tested on close bundles first, which is quicker. It takes no memory.
pub fn test_table(table: &RawTable) -> Verdict
    requires { IsFullIfLarge (firm_of_table table.now) }
    ensures holds { (result ≡ Verdict.Holds) ↔ NoneFails (firm_of_table table.now) }
    ensures first { IfFails result (IsFirstTriple (firm_of_table table.now)) }
    ensures within { IsTableWithinLimits table.now }
{
    if !table.full() {
        return test(table);
    }
    match local_test(table) {
        Verdict::Holds => Verdict::Holds,
        failed => {
            if table.trades() <= 10 {
                test(table)
            } else {
                failed
            }
        }
    }
}
