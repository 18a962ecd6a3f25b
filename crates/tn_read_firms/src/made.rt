//! Firms that can be made of what was read of each kind.

ghost use Rattle.std.specs.Prelude.{◌≡◌, ◌≤◌, Bool, length, IfOk};
ghost use Rattle.tn_base.specs.Firm.{Firm};
ghost use Rattle.tn_laminar.specs.Firms.{firm_of as laminar_firm_of};
ghost use Rattle.tn_middle.specs.Firms.{firm_of as middle_firm_of};
ghost use Rattle.tn_dealer.specs.Firms.{firm_of as dealer_firm_of};
ghost use Rattle.tn_exchange.specs.Rows.{firm_of_table};
ghost use Rattle.tn_model.specs.Limits.{most_own_of_table};
ghost use Rattle.tn_read_firms.specs.Firms.{tested_firm};
ghost use Rattle.tn_local.specs.First.{IsFullIfLarge};
ghost use Rattle.tn_read_shapes.specs.Reading.{Gives};

use crate::failures::failure;
use std::alloc::Global;
use tn_dealer::Dealer;
use tn_exchange::RawTable;
use tn_firm::{FirmValue, RawFirm};
use tn_laminar::Laminar;
use tn_middle::Middle;
use tn_read_references::Head;
use tn_read_shapes::ReadError;
use tn_table::{Table, TableRefused};

/// A firm that can be made of each kind. Where it is to meet exchange, this is the one time that a table is tested.
pub trait FromKinds: Sized {
    /// Whether it is to meet exchange.
    ghost tested: { Bool };

    /// The firm, as the definitions see it.
    ghost firm: { Self → Firm };

    /// What is known of each that is made: a firm whose exchange isn't tested yet can be tested.
    ghost known: { Self → Type 0 };

    /// Firm `f` of a document, or the fault that its table fails exchange.
    fn from_table(alloc: Global, head: &Head, f: u32, table: RawTable) -> Result<Self, ReadError>
        requires few { length table.sides ≤ most_own_of_table }
        requires full { IsFullIfLarge (firm_of_table table) }
        ensures gives { Gives firm result (tested_firm tested head.now.ends f table) }
        ensures known { IfOk result known };

    /// A laminar firm.
    fn from_laminar(laminar: Laminar) -> Self
        ensures firm { firm result ≡ laminar_firm_of laminar }
        ensures known { known result };

    /// A middleman.
    fn from_middle(middle: Middle) -> Self
        ensures firm { firm result ≡ middle_firm_of middle }
        ensures known { known result };

    /// A dealer.
    fn from_dealer(dealer: Dealer) -> Self
        ensures firm { firm result ≡ dealer_firm_of dealer }
        ensures known { known result };
}

impl FromKinds for RawFirm {
    ghost use Rattle.std.specs.Prelude.{false};
    ghost use Rattle.tn_firm.specs.Raw.{CanBeTested, raw_firm_of};

    ghost tested = { false };

    ghost firm = { raw_firm_of };

    ghost known = { CanBeTested };

    #[tactic(auto, unfolding(crate::specs::Firms::tested_firm))]
    fn from_table(
        _alloc: Global,
        _head: &Head,
        _f: u32,
        table: RawTable,
    ) -> Result<RawFirm, ReadError> {
        Ok(RawFirm::Table(table))
    }

    fn from_laminar(laminar: Laminar) -> RawFirm {
        RawFirm::Laminar(laminar)
    }

    fn from_middle(middle: Middle) -> RawFirm {
        RawFirm::Middle(middle)
    }

    fn from_dealer(dealer: Dealer) -> RawFirm {
        RawFirm::Dealer(dealer)
    }
}

impl FromKinds for FirmValue {
    ghost use Rattle.std.specs.Prelude.{true};
    ghost use Rattle.tn_firm.specs.Firms.{firm_of};

    ghost tested = { true };

    ghost firm = { firm_of };

    ghost known = { λ _. Unit {0} };

    fn from_table(
        alloc: Global,
        head: &Head,
        f: u32,
        table: RawTable,
    ) -> Result<FirmValue, ReadError> {
        match Table::new(table) {
            Ok(table) => Ok(FirmValue::Table(table)),
            Err(TableRefused { raw, x, y, at }) => {
                let fault = failure(alloc, head.ends(), f, raw.trades(), x, y, at)?;
                Err(ReadError::Fault(fault))
            }
        }
    }

    fn from_laminar(laminar: Laminar) -> FirmValue {
        FirmValue::Laminar(laminar)
    }

    fn from_middle(middle: Middle) -> FirmValue {
        FirmValue::Middle(middle)
    }

    fn from_dealer(dealer: Dealer) -> FirmValue {
        FirmValue::Dealer(dealer)
    }
}
