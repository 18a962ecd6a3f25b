//! Claims on the exchange property of firms that aren't tested yet.

ghost use Rattle.std.specs.Prelude.{◌≡◌, ◌^◌, ◌<◌, ◌≤◌, ◌↔◌, All, IfOk, IfSome, IsTrue, List, false, length, map};
ghost use Rattle.tn_base.specs.Exchange.{Fails};
ghost use Rattle.tn_firm.specs.Raw.{CanBeTested, raw_firm_of};
ghost use Rattle.tn_model.specs.declared.ends.Ends.{Ends};
ghost use Rattle.tn_said.specs.Claim.{on_firms};
ghost use Rattle.tn_said.specs.ClaimLimits.{IsFirmWith};
ghost use Rattle.tn_model.specs.Limits.{most_firms};
ghost use Rattle.tn_model.specs.Network.{trades_on};
ghost use Rattle.tn_cert.specs.Replays.{HasSmallSurplus, Replays, in_trades};

use crate::replayed::Replayed;
use std::alloc::Global;
use tn_base::{Bundle, OutOfMemory};
use tn_exchange::{Verdict, fails_at};
use tn_firm::RawFirm;
use tn_market::Trades;
use tn_said::{FirmClaim, Reason};

/// The positions below `count` in a bundle, ascending. It fails only where memory runs out.
pub(crate) fn positions_in(alloc: Global, bundle: Bundle, count: u32) -> Result<Trades, OutOfMemory>
    requires { count ≤ 64 }
    ensures { IfOk result (λ positions. positions ≡ trades_on bundle count) }
{
    let mut positions = Vec::new(alloc);
    for k in 0..count {
        if bundle.has(k) {
            positions.push(k)?;
        }
    }
    Ok(Trades::from_vec(positions))
}

/// Whether each firm meets the exchange property, or the first that doesn't, with its first triple in positions.
pub(crate) fn replay_accepted(alloc: Global, firms: &[RawFirm]) -> Result<Replayed, OutOfMemory>
    requires few_firms { length firms.now ≤ most_firms }
    requires testable { All CanBeTested firms.now }
    ensures replays { IfOk result (λ replayed. (trades : List Ends)
        → Replays (map raw_firm_of firms.now) trades (on_firms FirmClaim.Accepted) (in_trades trades replayed)) }
    ensures small { IfOk result HasSmallSurplus }
{
    for (f, firm) in firms.iter().enumerate() {
        match firm.test() {
            Verdict::Holds => {}
            Verdict::Fails { x, y, at } => {
                let count = firm.trades();
                let x = positions_in(alloc, x, count)?;
                let y = positions_in(alloc, y, count)?;
                let firm = f as u32;
                return Ok(Replayed::Invalid(Reason::Exchange { firm, x, y, at }));
            }
        }
    }
    Ok(Replayed::Valid)
}

/// Whether two bundles of a firm fail exchange at a position, or at none. Laminar firms, middlemen and dealers never
/// do.
fn fails(firm: &RawFirm, x: Bundle, y: Bundle, at: Option<u32>) -> bool
    requires x_own { x < 2 ^ (raw_firm_of firm.now).count }
    requires y_own { y < 2 ^ (raw_firm_of firm.now).count }
    requires at_own { IfSome at (λ k. k < (raw_firm_of firm.now).count) }
    ensures { IsTrue result ↔ Fails (raw_firm_of firm.now) x y at }
{
    match firm {
        RawFirm::Table(table) => fails_at(table, x, y, at),
        RawFirm::Laminar(_) | RawFirm::Middle(_) | RawFirm::Dealer(_) => false,
    }
}

/// Whether the triple fails at the firm, or that it holds.
pub(crate) fn replay_failure(
    firms: &[RawFirm],
    firm: u32,
    x: Bundle,
    y: Bundle,
    at: Option<u32>,
) -> Replayed
    requires own { IsFirmWith (map raw_firm_of firms.now) firm (λ it. (x < 2 ^ it.count) × (y < 2 ^ it.count)
        × IfSome at (λ k. k < it.count)) }
    ensures replays { (trades : List Ends)
        → Replays (map raw_firm_of firms.now) trades (on_firms (FirmClaim.ExchangeFails firm x y at)) (in_trades trades result) }
    ensures small { HasSmallSurplus result }
{
    if fails(&firms[firm as usize], x, y, at) {
        Replayed::Valid
    } else {
        Replayed::Invalid(Reason::Holds)
    }
}
