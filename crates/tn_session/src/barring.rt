//! A trade that is on is barred: one round of the solver backward.

ghost use Rattle.std.specs.Prelude.{◌≡◌, ℕ, ◌+◌, ◌*◌, ◌≤◌, ◌<◌, true, length, map};
ghost use Rattle.tn_base.specs.Sets.{has, toggle};
ghost use Rattle.tn_cycle.specs.Answers.{AreNear};
ghost use Rattle.tn_cycle.specs.Widths.{label_step, most_label};
ghost use Rattle.tn_market.specs.Graph.{graph_worths};
ghost use Rattle.tn_network_laws.specs.Along.{along};
ghost use Rattle.tn_network_laws.specs.Kept.{IsKept};
ghost use Rattle.tn_flow.specs.Underway.{AreKept, AreUnderWay};
ghost use Rattle.tn_session.specs.Standing.{AreFirmsSmall, IsLeaving};
ghost use Rattle.tn_market.specs.NetworkOf.{network_of};

use tn_base::Steps;
use tn_cycle::Path;
use tn_flow::Rounds;
use tn_market::{Market, Valuation};

/// Finds a least cycle through a trade that is on and admitted no longer, over it, the admitted trades and null, and
/// answers how many nodes the finder lists of it. There is one, since every firm may do without any trade. The labels
/// that it leaves keep the arcs once the trades are toggled along the cycle.
fn find_cycle<V: Valuation, const W: usize>(
    rounds: &mut Rounds<W>,
    market: &Market<V>,
    t: u32,
) -> u32
    requires wide { length market.now.trades ≤ 64 * W }
    requires leaving { network_of V.firm market.now IsLeaving rounds.old.graph rounds.old.finder rounds.old.allowed
        rounds.old.on t }
    requires near { AreNear most_label rounds.old.finder.labels }
    ensures rest { rounds.new ≡ record rounds.old { finder = rounds.new.finder } }
    ensures sized { rounds.new.finder.nodes ≡ rounds.old.finder.nodes }
    ensures counted { result ≡ length rounds.new.finder.listed }
    ensures kept { network_of V.firm market.now IsKept rounds.old.allowed
        (along (length market.now.trades) rounds.old.on rounds.new.finder.listed) }
    ensures labels { network_of V.firm market.now AreKept rounds.old.allowed
        (along (length market.now.trades) rounds.old.on rounds.new.finder.listed) rounds.new.finder.labels }
    ensures near { (reach : ℕ) → AreNear reach rounds.old.finder.labels
        → AreNear (reach + label_step (length market.now.trades + 1)) rounds.new.finder.labels }
{
    let _trades = market.trades();
    match rounds
        .finder
        .least_through(&rounds.graph, t, &rounds.allowed)
    {
        Path::Cycle { length, .. } => length,
        Path::None => unreachable!(),
    }
}

/// Bars an admitted trade that is on: the trades are toggled along a cycle through it of least cost and then of least
/// arcs. It asks for at most a worth for each two places of each firm, and takes no memory.
pub fn switch_off<V: Valuation, const W: usize>(
    rounds: &mut Rounds<W>,
    market: &Market<V>,
    t: u32,
    steps: &mut Steps<V::Mark>,
)
    requires wide { length market.now.trades ≤ 64 * W }
    requires small { AreFirmsSmall V.limit market.now }
    requires under_way { network_of V.firm market.now AreUnderWay rounds.old.graph rounds.old.finder rounds.old.allowed
        rounds.old.on }
    requires trade { t < length market.now.trades }
    requires admitted { has rounds.old.allowed t ≡ true }
    requires on { has rounds.old.on t ≡ true }
    requires near { AreNear most_label rounds.old.finder.labels }
    ensures under_way { network_of V.firm market.now AreUnderWay rounds.new.graph rounds.new.finder rounds.new.allowed
        rounds.new.on }
    ensures near { (reach : ℕ) → AreNear reach rounds.old.finder.labels
        → AreNear (reach + label_step (length market.now.trades + 1)) rounds.new.finder.labels }
    ensures barred { rounds.new.allowed ≡ toggle rounds.old.allowed t }
    ensures asked { steps.new ≤ steps.old + graph_worths (map V.firm market.now.firms) }
{
    rounds.allowed.toggle(t);
    let before = rounds.on;
    let count = find_cycle(rounds, market, t);
    rounds.toggle_nodes(count, market.trades());
    let (on, admitted) = (rounds.on, rounds.allowed);
    rounds.graph.refresh(market, &before, &on, &admitted, steps);
}
