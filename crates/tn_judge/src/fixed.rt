//! The exchange graph of an outcome's signed trades, with their prices fixed.

ghost use Rattle.std.specs.Prelude.{◌≡◌, ◌+◌, ◌*◌, ◌≤◌, ◌<◌, ◌+ℤ◌, ◌-ℤ◌, ◌*ℤ◌, ◌≤ℤ◌, pos, neg_ℤ, IfSome, option_map, false, true};
ghost use Rattle.tn_base.specs.Arcs.{IsAtMost};
ghost use Rattle.tn_graph.specs.Blocks.{arcs_of, listed_at, listed_count};
ghost use Rattle.tn_judge.specs.Fixing.{CanBeFixed, height, price_in, raised_fixed};
ghost use Rattle.tn_judge.specs.FixingLemmas.{fixed_predecessors, fixed_successors, raised_between, raised_within};
ghost use Rattle.tn_judge.specs.Limits.{most_exchange_cost};
ghost use Rattle.tn_outcome_laws.specs.Fixed.{fixing_arc, fixed_at, lesser};
ghost use Rattle.tn_model.specs.Limits.{most_numerator, most_over};

use tn_base::Costs;
use tn_graph::Graph;

/// How much higher a node with a price stands than others, which is at least the size of every price.
const HEIGHT: i128 = 100_000_000_000;

/// A graph whose costs count `over` times, where the prices of some nodes are fixed: an arc from null to such a
/// node at the price, and one back at minus it. Beside that such nodes are raised: an arc to one costs so much
/// more, and an arc from one so much less. Closed walks cost what they cost; but no least walk to any node need end
/// at a raised one, since null is one step further and costs no more. So the labels of the other nodes are those of
/// walks that end at one of them. The graph is laid out, so it lists null beside each trade, and each trade beside null:
/// its lists have the arcs that fix prices, too.
#[derive(Drop)]
pub struct Fixed<'a> {
    pub graph: &'a Graph,
    pub over: i128,
    /// The null node, which is the graph's last node.
    pub null: u32,
    /// The price of each node, None where it has none.
    pub prices: &'a [Option<i128>],
    ghost fits: { CanBeFixed graph.now over null prices.now },
}

/// A cost counted `over` times.
fn counted(over: i128, cost: i128) -> i128
    requires from_one { pos 1 ≤ℤ over }
    requires small_over { over ≤ℤ pos most_over }
    requires small { IsAtMost cost most_exchange_cost }
    ensures { result ≡ over *ℤ cost }
{
    over * cost
}

/// The lesser of two costs, None where both are.
fn lesser(first: Option<i128>, second: Option<i128>) -> Option<i128>
    ensures { result ≡ lesser first second }
{
    match (first, second) {
        (None, second) => second,
        (Some(a), None) => Some(a),
        (Some(a), Some(b)) => { if b < a { Some(b) } else { Some(a) } }
    }
}

/// Minus a price, where there is one.
fn negated(price: Option<i128>) -> Option<i128>
    requires { IfSome price (λ p. IsAtMost p most_numerator) }
    ensures { result ≡ option_map neg_ℤ price }
{
    match price {
        Some(price) => Some(-price),
        None => None,
    }
}

/// How high a node with a price, or without one, stands.
fn height(price: Option<i128>) -> i128
    ensures { result ≡ height price }
{
    if price.is_some() { HEIGHT } else { 0 }
}

/// A cost with how much the arc's end stands higher than its begin.
fn raised(cost: i128, begin: Option<i128>, end: Option<i128>) -> i128
    requires { IsAtMost cost (most_over * most_exchange_cost) }
    ensures { result ≡ (cost +ℤ height end) -ℤ height begin }
{
    cost + height(end) - height(begin)
}

impl Fixed<'_> {
    /// The price of a node.
    fn price(&self, v: u32) -> Option<i128>
        requires { v ≤ self.now.null }
        ensures { result ≡ price_in self.now.prices.now v }
    {
        self.prices[v as usize]
    }

    /// The cost of an arc of the graph, counted `over` times.
    fn exchange(&self, a: u32, b: u32) -> Option<i128>
        requires from { a ≤ self.now.null }
        requires to { b ≤ self.now.null }
        ensures { result ≡ option_map (λ cost. self.now.over *ℤ cost) (arcs_of self.now.graph.now a b) }
    {
        match self.graph.cost(a, b) {
            Some(cost) => Some(counted(self.over, cost)),
            None => None,
        }
    }

    /// The cost of an arc that fixes a price.
    fn fixing(&self, a: u32, b: u32) -> Option<i128>
        requires from { a ≤ self.now.null }
        requires to { b ≤ self.now.null }
        ensures { result ≡ fixing_arc (price_in self.now.prices.now) self.now.null a b }
    {
        if a == self.null {
            self.price(b)
        } else if b == self.null {
            negated(self.price(a))
        } else {
            None
        }
    }

    /// The cost of an arc before nodes are raised.
    fn unraised(&self, a: u32, b: u32) -> Option<i128>
        requires from { a ≤ self.now.null }
        requires to { b ≤ self.now.null }
        ensures cost { result ≡ fixed_at self.now.over (price_in self.now.prices.now) self.now.null
            (arcs_of self.now.graph.now) a b }
        ensures small { IfSome result (λ cost. IsAtMost cost (most_over * most_exchange_cost)) }
    {
        lesser(self.exchange(a, b), self.fixing(a, b))
    }
}

impl Costs for Fixed<'_> {
    ghost node_count = { λ it. it.null + 1 };

    ghost arc = { λ it. raised_fixed it.over it.prices.now it.null (arcs_of it.graph.now) };

    ghost predecessor_count = { λ it b. listed_count it.graph.now.places false b };

    ghost predecessor_at = { λ it b k. listed_at it.graph.now.places false b k };

    ghost successor_count = { λ it a. listed_count it.graph.now.places true a };

    ghost successor_at = { λ it a k. listed_at it.graph.now.places true a k };

    fn nodes(&self) -> u32 {
        self.graph.size()
    }

    fn cost(&self, a: u32, b: u32) -> Option<i128> {
        match self.unraised(a, b) {
            Some(cost) => Some(raised(cost, self.price(a), self.price(b))),
            None => None,
        }
    }

    fn predecessors(&self, b: u32) -> u32 {
        self.graph.predecessors(b)
    }

    fn predecessor(&self, b: u32, k: u32) -> u32 {
        self.graph.predecessor(b, k)
    }

    fn successors(&self, a: u32) -> u32 {
        self.graph.successors(a)
    }

    fn successor(&self, a: u32, k: u32) -> u32 {
        self.graph.successor(a, k)
    }

    ghost between_nodes = { λ it. raised_between it.graph.now it.over it.null it.prices.now it.fits };

    ghost small = { λ it. raised_within it.graph.now it.over it.null it.prices.now it.fits };

    ghost lists_predecessors = { λ it b inside. fixed_predecessors it.graph.now it.over it.null it.prices.now it.fits b
        inside };

    ghost lists_successors = { λ it a inside. fixed_successors it.graph.now it.over it.null it.prices.now it.fits a
        inside };
}
