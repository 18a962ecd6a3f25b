//! Firms of one type, whatever their kind.

use tn_base::{Asked, Bundle, OutOfMemory, Side, Steps};
use tn_dealer::Dealer;
use tn_guess::Sketch;
use tn_laminar::Laminar;
use tn_market::{Oracle, Valuation};
use tn_middle::Middle;
use tn_table::Table;

/// A firm of one of the kinds, which meets exchange.
#[derive(Drop)]
pub enum FirmValue {
    /// A number for each listed bundle.
    Table(Table),
    /// An amount for each own trade, and concave functions of the net counts of nested sets of them.
    Laminar(Laminar),
    /// A firm that buys one good and sells it on, or keeps it.
    Middle(Middle),
    /// A firm that matches several purchases one to one with its sales.
    Dealer(Dealer),
}

impl FirmValue {
    /// Lays the firm out as a part of a flow, and answers whether it has one: a table has none. It fails only where
    /// memory runs out.
    pub fn outline(&self, sketch: &mut Sketch) -> Result<bool, OutOfMemory> {
        match self {
            FirmValue::Table(_) => return Ok(false),
            FirmValue::Laminar(firm) => firm.outline(sketch)?,
            FirmValue::Middle(firm) => firm.outline(sketch)?,
            FirmValue::Dealer(firm) => firm.outline(sketch)?,
        }
        Ok(true)
    }
}

impl Valuation for FirmValue {
    ghost use Rattle.tn_firm.specs.Firms.{firm_of};
    ghost use Rattle.tn_firm.specs.FirmLemmas.{firm_laws};
    ghost use Rattle.tn_market.specs.Widths.{most_worth};

    type Mark = Asked;

    ghost firm = { firm_of };

    ghost limit = { λ _. most_worth };

    fn trades(&self) -> u32 {
        match self {
            FirmValue::Table(firm) => firm.trades(),
            FirmValue::Laminar(firm) => firm.trades(),
            FirmValue::Middle(firm) => firm.trades(),
            FirmValue::Dealer(firm) => firm.trades(),
        }
    }

    fn side(&self, k: u32) -> Side {
        match self {
            FirmValue::Table(firm) => firm.side(k),
            FirmValue::Laminar(firm) => firm.side(k),
            FirmValue::Middle(firm) => firm.side(k),
            FirmValue::Dealer(firm) => firm.side(k),
        }
    }

    fn bound(&self) -> i128 {
        match self {
            FirmValue::Table(firm) => firm.bound(),
            FirmValue::Laminar(firm) => firm.bound(),
            FirmValue::Middle(firm) => firm.bound(),
            FirmValue::Dealer(firm) => firm.bound(),
        }
    }

    fn value(&self, x: Bundle, steps: &mut Steps<Asked>) -> Option<i128> {
        match self {
            FirmValue::Table(firm) => firm.value(x, steps),
            FirmValue::Laminar(firm) => firm.value(x, steps),
            FirmValue::Middle(firm) => firm.value(x, steps),
            FirmValue::Dealer(firm) => firm.value(x, steps),
        }
    }

    fn row(
        &self,
        x: Bundle,
        wanted: Bundle,
        worths: &mut [Option<i128>],
        steps: &mut Steps<Asked>,
    ) {
        match self {
            FirmValue::Table(firm) => firm.row(x, wanted, worths, steps),
            FirmValue::Laminar(firm) => firm.row(x, wanted, worths, steps),
            FirmValue::Middle(firm) => firm.row(x, wanted, worths, steps),
            FirmValue::Dealer(firm) => firm.row(x, wanted, worths, steps),
        }
    }

    ghost lawful = { firm_laws };
}

impl Oracle for FirmValue {}
