//! A document that is read.

use crate::asked::{Asked, RawAsked, UnitAsked};
use std::alloc::Global;
use std::marker::Model;
use tn_base::{Bundle, OutOfMemory};
use tn_firm::{FirmValue, RawFirm};
use tn_market::{Ends, Market, Trades};
use tn_model::trades_of;
use tn_names::Names;
use tn_read_firms::own_option;
use tn_read_units::UnitDocument;

/// A document that is read, whatever its version.
#[derive(Drop)]
pub enum ReadDocument {
    /// A network of single trades, with what is asked about it.
    Network(Document),
    /// Firms between which trades have units, and what is asked about them.
    Units(UnitDocument, UnitAsked),
}

/// A document of single trades that is read.
#[derive(Drop)]
pub struct Document {
    /// The names of the firms and of the trades.
    pub names: Names,
    /// The network, and what is asked about it.
    pub content: Content,
}

impl Document {
    ghost use Rattle.std.specs.Prelude.{◌≡◌};

    /// The names alone. The rest is given back here, so that no caller's proof has to follow how.
    pub fn into_names(self) -> Names
        ensures { result ≡ self.names }
    {
        let Document { names, content } = self;
        drop(content);
        names
    }
}

/// The network of a document, with what is asked about it.
#[derive(Drop)]
pub enum Content {
    /// Firms that meet exchange, and the trades between them.
    Market(Market<FirmValue>, Asked),
    /// Firms as they are listed.
    Raw(RawNet, RawAsked),
}

/// Firms as they are listed, each of which can be tested, and the two ends of each trade.
#[derive(Drop)]
pub struct RawNet {
    firms: Vec<RawFirm>,
    ends: Vec<Ends>,
}

impl Model for RawNet {
    ghost use Rattle.std.specs.Prelude.{All};
    ghost use Rattle.tn_file.specs.RawData.{RawData};
    ghost use Rattle.tn_firm.specs.Raw.{CanBeTested};

    ghost Value = { RawData };

    ghost view = { λ net. record { firms = net.firms.items; ends = net.ends.items } };

    ghost invariant = { λ net. All CanBeTested net.firms.items };
}

impl RawNet {
    ghost use Rattle.std.specs.Prelude.{◌≡◌, ◌≤◌, length, option_map, All, IfOk};
    ghost use Rattle.tn_firm.specs.Raw.{CanBeTested};
    ghost use Rattle.tn_model.specs.Limits.{most_trades};
    ghost use Rattle.tn_model.specs.Network.{own, trades_of};

    pub(crate) fn new(firms: Vec<RawFirm>, ends: Vec<Ends>) -> RawNet
        requires { All CanBeTested firms.items }
        ensures { result ≡ record { firms = firms.items; ends = ends.items } }
    {
        RawNet { firms, ends }
    }

    /// The firms, each of which can be tested.
    pub fn firms(&self) -> &[RawFirm]
        ensures is { result.now ≡ self.now.firms }
        ensures testable { All CanBeTested self.now.firms }
    {
        &self.firms
    }

    /// The ends of the trades, in file order.
    pub fn ends(&self) -> &[Ends]
        ensures { result.now ≡ self.now.ends }
    {
        &self.ends
    }

    /// The trades of firm `f`, which has `count` own trades, in a bundle, ascending. There are at most 1,024 trades.
    pub fn trades_in(
        &self,
        alloc: Global,
        f: u32,
        count: u32,
        bundle: Bundle,
    ) -> Result<Trades, OutOfMemory>
        requires few { length self.now.ends ≤ most_trades }
        requires count { count ≤ 64 }
        ensures { IfOk result (λ trades. trades ≡ trades_of self.now.ends f count bundle) }
    {
        Ok(Trades::from_vec(trades_of(alloc, &self.ends, f, count, bundle)?))
    }

    /// The trade at a position of firm `f`, where there is one. There are at most 1,024 trades.
    pub fn trade_at(&self, f: u32, at: Option<u32>) -> Option<u32>
        requires { length self.now.ends ≤ most_trades }
        ensures { result ≡ option_map (own self.now.ends f) at }
    {
        own_option(&self.ends, f, at)
    }
}
