//! Several trades are admitted and barred, one round of the solver after another.

ghost use Rattle.std.specs.Prelude.{◌≡◌, ◌≢◌, ℕ, ◌+◌, ◌*◌, ◌≤◌, ◌<◌, true, length, map};
ghost use Rattle.tn_base.specs.Sets.{has, toggle};
ghost use Rattle.tn_cycle.specs.Answers.{AreNear};
ghost use Rattle.tn_cycle.specs.Widths.{label_step, most_label};
ghost use Rattle.tn_market.specs.Graph.{graph_worths};
ghost use Rattle.tn_flow.specs.Underway.{AreUnderWay};
ghost use Rattle.tn_session.specs.Standing.{AreFirmsSmall};
ghost use Rattle.tn_session.specs.Widths.{most_path};
ghost use Rattle.tn_market.specs.NetworkOf.{network_of};

use crate::barring::switch_off;
use tn_base::{Steps, TradeSet};
use tn_flow::Rounds;
use tn_market::{Market, Valuation};

/// Bars an admitted trade: where it is off, what is on stays.
fn bar_at<V: Valuation, const W: usize>(
    rounds: &mut Rounds<W>,
    market: &Market<V>,
    t: u32,
    steps: &mut Steps<V::Mark>,
)
    requires wide { length market.now.trades ≤ 64 * W }
    requires small { AreFirmsSmall V.limit market.now }
    requires under_way { network_of V.firm market.now AreUnderWay rounds.old.graph rounds.old.finder rounds.old.allowed
        rounds.old.on }
    requires trade { t < length market.now.trades }
    requires admitted { has rounds.old.allowed t ≡ true }
    requires near { AreNear most_label rounds.old.finder.labels }
    ensures under_way { network_of V.firm market.now AreUnderWay rounds.new.graph rounds.new.finder rounds.new.allowed
        rounds.new.on }
    ensures near { (reach : ℕ) → AreNear reach rounds.old.finder.labels
        → AreNear (reach + label_step (length market.now.trades + 1)) rounds.new.finder.labels }
    ensures barred { rounds.new.allowed ≡ toggle rounds.old.allowed t }
    ensures asked { steps.new ≤ steps.old + graph_worths (map V.firm market.now.firms) }
{
    if rounds.on.has(t) {
        switch_off(rounds, market, t, steps);
    } else {
        rounds.allowed.toggle(t);
    }
}

/// Admits a trade that is wanted, or bars one that isn't, where it isn't so already.
fn move_at<V: Valuation, const W: usize>(
    rounds: &mut Rounds<W>,
    market: &Market<V>,
    t: u32,
    wanted: bool,
    steps: &mut Steps<V::Mark>,
)
    requires wide { length market.now.trades ≤ 64 * W }
    requires small { AreFirmsSmall V.limit market.now }
    requires under_way { network_of V.firm market.now AreUnderWay rounds.old.graph rounds.old.finder rounds.old.allowed
        rounds.old.on }
    requires trade { t < length market.now.trades }
    requires near { AreNear most_label rounds.old.finder.labels }
    ensures under_way { network_of V.firm market.now AreUnderWay rounds.new.graph rounds.new.finder rounds.new.allowed
        rounds.new.on }
    ensures near { (reach : ℕ) → AreNear reach rounds.old.finder.labels
        → AreNear (reach + label_step (length market.now.trades + 1)) rounds.new.finder.labels }
    ensures here { has rounds.new.allowed t ≡ wanted }
    ensures elsewhere { (k : ℕ) → k ≢ t → has rounds.new.allowed k ≡ has rounds.old.allowed k }
    ensures asked { steps.new ≤ steps.old + graph_worths (map V.firm market.now.firms) }
{
    if rounds.allowed.has(t) == wanted {
        return;
    }
    if wanted {
        rounds.admit(market, t, steps);
    } else {
        bar_at(rounds, market, t, steps);
    }
}

/// Admits the trades of a set that aren't admitted, and bars all others, one after another. It asks for at most a worth
/// for each two places of each firm, once for each trade.
pub fn move_all<V: Valuation, const W: usize>(
    rounds: &mut Rounds<W>,
    market: &Market<V>,
    wanted: &TradeSet<W>,
    steps: &mut Steps<V::Mark>,
)
    requires wide { length market.now.trades ≤ 64 * W }
    requires small { AreFirmsSmall V.limit market.now }
    requires under_way { network_of V.firm market.now AreUnderWay rounds.old.graph rounds.old.finder rounds.old.allowed
        rounds.old.on }
    requires near { AreNear most_path rounds.old.finder.labels }
    ensures under_way { network_of V.firm market.now AreUnderWay rounds.new.graph rounds.new.finder rounds.new.allowed
        rounds.new.on }
    ensures near { AreNear most_label rounds.new.finder.labels }
    ensures admitted { (t : ℕ) → t < length market.now.trades → has rounds.new.allowed t ≡ has wanted.now t }
    ensures asked { steps.new ≤ steps.old + length market.now.trades * graph_worths (map V.firm market.now.firms) }
{
    for t in 0..market.trades() {
        move_at(rounds, market, t, wanted.has(t), steps);
    }
}
