//! Tests of drawn networks.

ghost use Rattle.std.specs.Prelude.{◌<◌, length};

use std::test::Fail;
use tn_base::{Asked, Bundle, Steps};
use tn_drill::drill;
use tn_firm::FirmValue;
use tn_market::{Market, Valuation};

/// What a bundle is worth to firm `f`, None where it has a trade that isn't the firm's own.
fn worth(market: &Market<FirmValue>, f: u32, bits: u64) -> Option<i128>
    requires { f < length market.now.firms }
{
    let firm = market.firm(f);
    if firm.trades() < 64 && bits < 1 << firm.trades() {
        firm.value(Bundle::from_bits(bits), &mut Steps::new(Asked))
    } else {
        None
    }
}

/// The seller of a trade and its position there, and the buyer and its position there.
fn ends_of(market: &Market<FirmValue>, trade: u32) -> [u32; 4]
    requires { trade < length market.now.trades }
{
    let ends = market.ends(trade);
    [ends.seller, ends.at_seller, ends.buyer, ends.at_buyer]
}

/// Three trades, drawn by hand: the last two are worth 84 together.
#[test]
fn three_trades_from_1(rt: HostRuntime) -> Result<(), Fail> {
    let market = drill(rt.alloc(), 3, 1)?;
    assert!(rt; (market.firms(), market.trades()) == (16, 3));
    let ends = [ends_of(&market, 1), ends_of(&market, 2)];
    let worths = [
        worth(&market, 0, 1),
        worth(&market, 4, 1),
        worth(&market, 1, 1),
        worth(&market, 5, 3),
        worth(&market, 12, 1),
    ];
    let wanted = [Some(-10), None, Some(-21), Some(5), Some(100)];
    assert!(rt; (ends, worths) == ([[5, 0, 12, 0], [1, 0, 5, 1]], wanted));
    Ok(())
}

/// One trade, whose middleman can't sell it on.
#[test]
fn one_trade_from_0(rt: HostRuntime) -> Result<(), Fail> {
    let market = drill(rt.alloc(), 1, 0)?;
    assert!(rt; (market.firms(), market.trades()) == (16, 1));
    let ends = market.ends(0);
    let worths = [worth(&market, 0, 1), worth(&market, 4, 1)];
    assert!(rt; (ends.seller, ends.buyer, worths) == (0, 4, [Some(-20), None]));
    Ok(())
}
