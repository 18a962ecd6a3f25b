//! The residual market of an outcome.

ghost use Rattle.std.specs.Prelude.{◌≡◌, ◌*◌, ◌<◌, ◌≤◌, All, IfOk, pos, ◌≤ℤ◌, ◌*ℤ◌, length, map};
ghost use Rattle.tn_market.specs.Limits.{IsOutcomeOf, IsWithinLimits};
ghost use Rattle.tn_model.specs.Limits.{most_claimed_over};
ghost use Rattle.tn_residual.specs.Residual.{residual_limit, residual_of, residual_trades};
ghost use Rattle.tn_residual.specs.Surplus.{IsSurplusOfReduced};
ghost use Rattle.tn_market.specs.NetworkOf.{network_of};

use crate::halves::all_trades;
use crate::parties::all_parties;
use std::alloc::Global;
use tn_base::OutOfMemory;
use tn_market::{Market, Outcome, Party, Valuation};

/// The residual market of an outcome. Its trades are the unsigned ones, in order, and two for each contract: by the
/// first its seller sells to a firm outside, and by the second that firm sells to its buyer. Its firms are the
/// market's, their worths counted `over * scale` times with a tax on each unsigned trade, and then the firms outside,
/// each at `scale` times the price of its contract. It fails only where memory runs out.
///
/// For each set of unsigned trades its greatest surplus is that of their reduced worths: each end of a contract is on
/// where its own firm likes it, and the firm outside pays the one end what it gets from the other. The limits of firms
/// and outcomes hold (at most 1,024 firms and 1,024 trades, 60 own trades, worths of at most 1.24 * 10^11 in size, or
/// 1.24 * 10^9 where there are more than 128 trades, numerators of at most 10^11, a denominator of 1 to 100); `over *
/// scale` is 1 to 1,000,000, and the tax is 0 or 1.
pub fn residual<'a, V: Valuation>(
    alloc: Global,
    market: &'a Market<V>,
    outcome: &Outcome,
    scale: i128,
    tax: i128,
) -> Result<Market<Party<'a, V>>, OutOfMemory>
    requires limits { IsWithinLimits V.firm V.limit market.now }
    requires outcome { IsOutcomeOf market.now.trades outcome.now.over outcome.now.contracts }
    requires scaled { pos 1 ≤ℤ (outcome.now.over *ℤ scale) }
    requires small_scale { (outcome.now.over *ℤ scale) ≤ℤ pos most_claimed_over }
    requires taxed { pos 0 ≤ℤ tax }
    requires small_tax { tax ≤ℤ pos 1 }
    ensures firms { IfOk result (λ residual. map ⟦<Party<'a, V> as Valuation>⟧.firm residual.firms
        ≡ network_of V.firm market.now residual_of outcome.now.over outcome.now.contracts scale tax) }
    ensures trades { IfOk result (λ residual. residual.trades
        ≡ residual_trades (length market.now.firms) market.now.trades outcome.now.contracts) }
    ensures limits { IfOk result
        (λ residual. All (λ party. ⟦<Party<'a, V> as Valuation>⟧.limit party
        ≤ residual_limit (length market.now.trades) outcome.now.over scale) residual.firms) }
    ensures surplus { IfOk result (λ residual. network_of ⟦<Party<'a, V> as Valuation>⟧.firm residual IsSurplusOfReduced
        (map V.firm market.now.firms) market.now.trades outcome.now.over outcome.now.contracts scale tax) }
{
    let parties = all_parties(alloc, market, outcome, scale, tax)?;
    let trades = all_trades(alloc, market, outcome)?;
    Market::new(alloc, parties, trades)
}
