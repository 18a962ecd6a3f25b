//! Tables by bundle number.

ghost use Rattle.std.specs.Prelude.{◌≡◌, ◌^◌, ◌<◌, ◌≤◌, ◌↔◌, Some, Err, length, slice_get, IsTrue, IfOk, OnOk, OnErr, IfSome};
ghost use Rattle.tn_base.specs.Arcs.{IsAtMost};
ghost use Rattle.tn_base.specs.Every.{HasEveryBundle};
ghost use Rattle.tn_base.specs.Table.{buys_of};
ghost use Rattle.tn_exchange.specs.Rows.{HasRow, IsTableWithinLimits, firm_of_table, without_rows, with_row};
ghost use Rattle.tn_exchange.specs.Widths.{most_table_trades};
ghost use Rattle.tn_base.specs.Widths.{most_amount};

use crate::refusal::RowRefusal;
use std::alloc::Global;
use std::marker::Model;
use tn_base::{Bundle, OutOfMemory, Side, purchases};

/// A table of numbers for bundles of own positions that may not meet exchange. The empty bundle is worth 0 where it
/// has no row; every other bundle without a row is impossible.
#[derive(Drop)]
pub struct RawTable {
    sides: Vec<Side>,
    // one place for each bundle, by its number
    rows: Vec<Option<i128>>,
}

impl Model for RawTable {
    ghost use Rattle.tn_exchange.specs.Rows.{TableRows, IsTableWithinLimits};

    ghost Value = { TableRows };

    ghost view = { λ table. record { sides = table.sides.items; rows = table.rows.items } };

    ghost invariant = { λ table. IsTableWithinLimits (record { sides = table.sides.items; rows = table.rows.items }) };
}

impl RawTable {
    /// The table of these sides, at most 14, without rows. It takes all the memory that the table needs.
    pub fn new(alloc: Global, sides: Vec<Side>) -> Result<RawTable, OutOfMemory>
        requires { length sides.items ≤ most_table_trades }
        ensures { IfOk result (λ table. table ≡ without_rows sides.items) }
    {
        let rows = vec![in alloc; None; 1 << sides.len()]?;
        Ok(RawTable { sides, rows })
    }

    /// Adds a row for a bundle of own positions, with an amount of at most 10^9 in size. It is refused exactly where a
    /// row for the bundle is there.
    pub fn add(&mut self, bundle: Bundle, amount: i128) -> Result<(), RowRefusal>
        requires own { bundle < 2 ^ length self.old.sides }
        requires small { IsAtMost amount most_amount }
        ensures same { (result ≡ Err RowRefusal.Same) ↔ HasRow self.old bundle }
        ensures ok { OnOk result (self.new ≡ with_row self.old bundle amount) }
        ensures err { OnErr result (self.new ≡ self.old) }
    {
        let at = bundle.bits() as usize;
        if self.rows[at].is_some() {
            return Err(RowRefusal::Same);
        }
        self.rows[at] = Some(amount);
        Ok(())
    }

    /// What a bundle of own positions is worth, or none where it is impossible.
    pub fn worth(&self, x: Bundle) -> Option<i128>
        requires { x < 2 ^ length self.now.sides }
        ensures worth { result ≡ (firm_of_table self.now).worth x }
        ensures small { IfSome result (λ amount. IsAtMost amount most_amount) }
    {
        let row = self.rows[x.bits() as usize];
        if row.is_none() && x.bits() == 0 {
            Some(0)
        } else {
            row
        }
    }

    /// Whether every bundle of own positions is possible. It takes no memory.
    pub fn full(&self) -> bool
        ensures { IsTrue result ↔ HasEveryBundle (firm_of_table self.now) }
    {
        for bits in 0..self.bundles() {
            if self.worth(Bundle::from_bits(bits)).is_none() {
                return false;
            }
        }
        true
    }

    /// How many trades are the firm's own, at most 14.
    pub fn trades(&self) -> u32
        ensures count { result ≡ length self.now.sides }
        ensures within { IsTableWithinLimits self.now }
    {
        self.sides.len() as u32
    }

    /// The side of the own trade at position `k`.
    pub fn side(&self, k: u32) -> Side
        requires { k < length self.now.sides }
        ensures { slice_get self.now.sides k ≡ Some result }
    {
        self.sides[k as usize]
    }

    /// How many bundles of own positions there are.
    pub fn bundles(&self) -> u64
        ensures { result ≡ 2 ^ length self.now.sides }
    {
        1 << self.trades()
    }

    /// The positions that are bought.
    pub fn buys(&self) -> Bundle
        ensures members { result ≡ buys_of self.now.sides }
        ensures within { IsTableWithinLimits self.now }
    {
        purchases(&self.sides)
    }
}
