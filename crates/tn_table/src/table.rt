//! A table that was tested.

ghost use Rattle.std.specs.Prelude.{◌↔◌};
ghost use Rattle.tn_base.specs.Exchange.{NoneFails};
ghost use Rattle.tn_exchange.specs.Rows.{firm_of_table, IsTableWithinLimits};

use tn_base::Bundle;
use tn_exchange::{RawTable, Verdict};
use tn_local::test_table;

/// A table firm that meets exchange.
#[derive(Drop)]
pub struct Table {
    pub(crate) raw: RawTable,
    ghost within: { IsTableWithinLimits raw },
    ghost none_fails: { NoneFails (firm_of_table raw) },
}

/// A table that doesn't meet exchange, as it was given, with its first triple: the first failing one in test order, or,
/// with more than 10 sides, the first of those with close bundles.
#[derive(Drop)]
pub struct TableRefused {
    /// The table.
    pub raw: RawTable,
    /// The first bundle.
    pub x: Bundle,
    /// The second bundle.
    pub y: Bundle,
    /// The position that can't be exchanged, or none where the net count can't be.
    pub at: Option<u32>,
}

impl Table {
    ghost use Rattle.std.specs.Prelude.{◌≡◌, IsOk, IfOk, IfErr};
    ghost use Rattle.tn_local.specs.First.{IsFullIfLarge};
    ghost use Rattle.tn_table.specs.Tables.{firm_of, Refuses};

    /// The firm of a table, where no triple fails exchange. A table of more than 10 sides has every bundle. It takes no
    /// memory.
    pub fn new(raw: RawTable) -> Result<Table, TableRefused>
        requires { IsFullIfLarge (firm_of_table raw) }
        ensures accepted { IsOk result ↔ NoneFails (firm_of_table raw) }
        ensures same { IfOk result (λ table. firm_of table ≡ firm_of_table raw) }
        ensures refused { IfErr result (Refuses raw) }
    {
        match test_table(&raw) {
            Verdict::Holds => Ok(Table { raw }),
            Verdict::Fails { x, y, at } => Err(TableRefused { raw, x, y, at }),
        }
    }
}
