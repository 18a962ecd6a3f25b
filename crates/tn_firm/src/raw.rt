//! Firms that weren't tested yet.

use tn_base::{Asked, Bundle, Steps};
use tn_dealer::Dealer;
use tn_exchange::{RawTable, Verdict};
use tn_laminar::Laminar;
use tn_local::test_table;
use tn_market::Valuation;
use tn_middle::Middle;

/// A firm of one of the kinds, whose exchange isn't tested yet.
#[derive(Drop)]
pub enum RawFirm {
    /// A number for each listed bundle.
    Table(RawTable),
    /// An amount for each own trade, and concave functions of the net counts of nested sets of them.
    Laminar(Laminar),
    /// A firm that buys one good and sells it on, or keeps it.
    Middle(Middle),
    /// A firm that matches several purchases one to one with its sales.
    Dealer(Dealer),
}

impl RawFirm {
    ghost use Rattle.std.specs.Prelude.{◌≡◌, ◌^◌, ◌<◌, ◌≤◌, ◌↔◌, IfSome};
    ghost use Rattle.tn_base.specs.Arcs.{IsAtMost};
    ghost use Rattle.tn_base.specs.Exchange.{NoneFails};
    ghost use Rattle.tn_exchange.specs.Verdicts.{IfFails};
    ghost use Rattle.tn_local.specs.First.{IsFirstTriple};
    ghost use Rattle.tn_firm.specs.Raw.{CanBeTested, raw_firm_of};
    ghost use Rattle.tn_market.specs.Widths.{most_own, most_worth};

    /// How many own trades there are.
    pub fn trades(&self) -> u32
        ensures count { result ≡ (raw_firm_of self.now).count }
        ensures few { result ≤ most_own }
    {
        match self {
            RawFirm::Table(table) => table.trades(),
            RawFirm::Laminar(firm) => firm.trades(),
            RawFirm::Middle(firm) => firm.trades(),
            RawFirm::Dealer(firm) => firm.trades(),
        }
    }

    /// What a bundle of own trades is worth, None where it is impossible. It takes no memory.
    pub fn worth(&self, x: Bundle) -> Option<i128>
        requires { x < 2 ^ (raw_firm_of self.now).count }
        ensures worth { result ≡ (raw_firm_of self.now).worth x }
        ensures small { IfSome result (λ worth. IsAtMost worth most_worth) }
    {
        match self {
            RawFirm::Table(table) => table.worth(x),
            RawFirm::Laminar(firm) => firm.value(x, &mut Steps::new(Asked)),
            RawFirm::Middle(firm) => firm.value(x, &mut Steps::new(Asked)),
            RawFirm::Dealer(firm) => firm.value(x, &mut Steps::new(Asked)),
        }
    }

    /// Whether the firm meets exchange, or else its first triple: the first that fails in test order, or, for a table
    /// of more than 10 trades, the first of those with close bundles. Such a table has every bundle. Laminar firms,
    /// middlemen and dealers always meet exchange. It takes no memory.
    pub fn test(&self) -> Verdict
        requires { CanBeTested self.now }
        ensures holds { (result ≡ Verdict.Holds) ↔ NoneFails (raw_firm_of self.now) }
        ensures first { IfFails result (IsFirstTriple (raw_firm_of self.now)) }
    {
        match self {
            RawFirm::Table(table) => test_table(table),
            RawFirm::Laminar(_) | RawFirm::Middle(_) | RawFirm::Dealer(_) => Verdict::Holds,
        }
    }
}
