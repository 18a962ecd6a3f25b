//! The costs of the listed pairs by purchase and sale, so that a pair is found by its two positions.

ghost use Rattle.std.specs.Prelude.{◌≡◌, ◌*◌, ◌+◌, ◌<◌, All};
ghost use Rattle.tn_base.specs.Arcs.{IsAtMost};
ghost use Rattle.tn_base.specs.Widths.{most_amount};
ghost use Rattle.tn_dealer.specs.Costs.{AreCosts, place_of_pair};
ghost use Rattle.tn_dealer.specs.Pairs.{AreUnrepeated, IsNear};
ghost use Rattle.tn_market.specs.Widths.{most_own};

use crate::pair::Pair;
use tn_market::MOST_OWN;

/// How many positions there are.
pub(crate) const POSITIONS: usize = MOST_OWN;

/// How many costs there are: one for each purchase and each sale.
pub(crate) const CELLS: usize = POSITIONS * POSITIONS;

/// The cost where no pair is listed.
pub(crate) const UNLISTED: i32 = i32::MAX;

/// Where the cost of a purchase and a sale stands.
pub(crate) fn place(buy: usize, sell: usize) -> usize
    requires buy { buy < most_own }
    requires sell { sell < most_own }
    ensures place { result ≡ place_of_pair buy sell }
    ensures inside { result < most_own * most_own }
{
    buy * POSITIONS + sell
}

/// The cost of a pair.
fn cost_of(pair: &Pair) -> i32
    requires { IsAtMost pair.now.cost most_amount }
    ensures { result ≡ pair.now.cost }
{
    pair.cost as i32
}

/// The costs of pairs, each at the place of its purchase and its sale.
pub(crate) fn costs_of(pairs: &[Pair]) -> [i32; CELLS]
    requires near { All IsNear pairs.now }
    requires small { All (λ pair. IsAtMost pair.cost most_amount) pairs.now }
    requires different { AreUnrepeated pairs.now }
    ensures { AreCosts pairs.now result }
{
    let mut costs = [UNLISTED; CELLS];
    for pair in pairs {
        costs[place(pair.buy as usize, pair.sell as usize)] = cost_of(pair);
    }
    costs
}
