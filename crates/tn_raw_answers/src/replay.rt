//! The answer of `replay` on firms that are read raw.

ghost use Rattle.std.specs.Prelude.{◌≡◌, ◌≤◌, IfOk, length, map};
ghost use Rattle.tn_answer.specs.Kept.{IsWithinClaims};
ghost use Rattle.tn_cert.specs.Replays.{reason_in};
ghost use Rattle.tn_commands.specs.Replay.{DecidesClaim};
ghost use Rattle.tn_firm.specs.Raw.{raw_firm_of};
ghost use Rattle.tn_model.specs.Limits.{most_firms, most_trades};
ghost use Rattle.tn_said.specs.Claim.{on_firms};
ghost use Rattle.tn_said.specs.ClaimLimits.{IsClaimWithin};
ghost use Rattle.tn_model.specs.Network.{IsNetwork, own};

use std::alloc::Global;
use tn_base::OutOfMemory;
use tn_cert::{Replayed, replay_raw};
use tn_file::RawNet;
use tn_market::Trades;
use tn_said::{FirmClaim, Reason, Said};

/// The trade at a position of firm `f`.
fn own_trade(net: &RawNet, f: u32, k: u32) -> u32
    requires { length net.now.ends ≤ most_trades }
    ensures { result ≡ own net.now.ends f k }
{
    match net.trade_at(f, Some(k)) {
        Some(trade) => trade,
        None => unreachable!(),
    }
}

/// The trades at positions of firm `f`, in their order.
fn own_trades(
    alloc: Global,
    net: &RawNet,
    f: u32,
    positions: &Trades,
) -> Result<Trades, OutOfMemory>
    requires { length net.now.ends ≤ most_trades }
    ensures { IfOk result (λ trades. trades ≡ map (own net.now.ends f) positions.now) }
{
    let mut trades = Vec::new(alloc);
    for k in 0..positions.len() {
        trades.push(own_trade(net, f, positions.at(k)))?;
    }
    Ok(Trades::from_vec(trades))
}

/// A reason with the trades at a firm's positions in place of these.
fn reason_in(alloc: Global, net: &RawNet, reason: Reason) -> Result<Reason, OutOfMemory>
    requires { length net.now.ends ≤ most_trades }
    ensures { IfOk result (λ named. named ≡ reason_in net.now.ends reason) }
{
    match reason {
        Reason::Exchange { firm, x, y, at } => {
            let x = own_trades(alloc, net, firm, &x)?;
            let y = own_trades(alloc, net, firm, &y)?;
            let at = net.trade_at(firm, at);
            Ok(Reason::Exchange { firm, x, y, at })
        }
        reason => Ok(reason),
    }
}

/// Whether a claim of the exchange property holds, or one that there are no prices, or else the first of its conditions
/// that fails. There are at most 1,024 firms and 1,024 trades, and firms and trades fit together.
pub fn answer_replay_raw(
    alloc: Global,
    net: &RawNet,
    claim: &FirmClaim,
) -> Result<Said, OutOfMemory>
    requires few_firms { length net.now.firms ≤ most_firms }
    requires few_trades { length net.now.ends ≤ most_trades }
    requires network { IsNetwork (map raw_firm_of net.now.firms) net.now.ends }
    requires claim { IsClaimWithin (map raw_firm_of net.now.firms) net.now.ends (on_firms claim.now) }
    ensures answer { IfOk result (DecidesClaim (map raw_firm_of net.now.firms) net.now.ends (on_firms claim.now)) }
    ensures within { IfOk result IsWithinClaims }
{
    match replay_raw(alloc, net.firms(), net.ends(), claim)? {
        Replayed::Valid => Ok(Said::Valid),
        Replayed::Invalid(reason) => Ok(Said::Invalid(reason_in(alloc, net, reason)?)),
    }
}
