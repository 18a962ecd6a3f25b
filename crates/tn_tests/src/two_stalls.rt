//! Two stalls as firms and as a market: what each is worth, and the graph, the prices and the trades of both.

ghost use Rattle.std.specs.Prelude.{◌≡◌, ◌<◌};
ghost use Rattle.tn_base.specs.Sets.{meet, union};

use crate::stalls::{Stall, ends, two_stalls};
use tn_base::{Asked, Bundle, Costs, Side, Steps, TradeSet};
use tn_flow::Solver;
use tn_graph::Graph;
use tn_market::{Levied, Nodes, Oracle, Outside, Party, Valuation, utility_of, worth_of};
use tn_price::{Support, support};
use tn_range::range;
use tn_session::Session;

#[test]
fn market_keeps_its_trades(rt: HostRuntime) {
    let market = two_stalls(rt.alloc()).expect(&rt, "memory");
    let counts = [market.firms(), market.trades(), market.firm(1).trades()];
    let owns = [
        [market.own(0, 0), market.own(0, 1)],
        [market.own(1, 0), market.own(1, 1)],
    ];
    assert!(rt; (counts, owns, market.ends(1)) == ([2; 3], [[1, 0], [0, 1]], ends(1, 0)));
    let mut on = TradeSet::<1>::empty();
    on.toggle(0);
    assert!(rt;
        [
            market.bundle_of(0, &on).bits(),
            market.bundle_of(1, &on).bits()
        ] == [2, 1]
    );
}

/// What the stall does at these prices and a scale of 2, where it must have `need` and may have `free`.
fn best_at(need: u64, free: u64, buy_at: i32, sell_at: i32) -> Option<(u64, i128)>
    requires apart { meet need free ≡ 0 }
    requires own { union need free < 4 }
{
    let need = Bundle::from_bits(need);
    let free = Bundle::from_bits(free);
    let prices = [i128::from(buy_at), i128::from(sell_at)];
    let (bundle, value) = Stall.best(need, free, 2, &prices)?;
    Some((bundle.bits(), value))
}

#[test]
#[tactic(auto, unfolding(tn_base::specs::Sets::meet, tn_base::specs::Sets::union))]
fn best_bundle_of_a_stall(rt: HostRuntime) {
    let found = [
        best_at(0, 3, 4, 4),
        best_at(1, 2, 4, 4),
        best_at(0, 1, -8, 4),
        best_at(2, 1, 4, -40),
        best_at(0, 0, -8, 40),
    ];
    let wanted = [
        Some((2, 14)),
        Some((3, 4)),
        Some((1, 2)),
        Some((2, -30)),
        Some((0, 0)),
    ];
    assert!(rt; found == wanted);
}

/// What two bundles are worth.
#[test]
fn bundles_of_a_stall(rt: HostRuntime) {
    let both = Bundle::from_bits(3);
    let worth = worth_of(&Stall, both);
    assert!(rt; [worth, utility_of(&Stall, both, 2, &[4, 4])] == [Some(2), Some(4)]);
}

/// A stall under a tax, a stall of a residual market, and the firm outside.
#[test]
fn firms_made_of_a_stall(rt: HostRuntime) {
    let stall = Stall;
    let mut steps = Steps::new(Asked);
    let both = Bundle::from_bits(3);
    let taxed = Levied::new(&stall, 2, Bundle::from_bits(1), 1);
    let sold = taxed.value(Bundle::from_bits(2), &mut steps);
    let taxed_worths = [taxed.value(both, &mut steps), sold];
    let member = Party::Firm(Levied::new(&stall, 1, Bundle::empty(), 0));
    let worth = member.value(both, &mut steps);
    assert!(rt; (taxed_worths, worth) == ([Some(3), Some(10)], Some(2)));
    let outside: Party<Stall> = Party::Outside(Outside::new(-7));
    let bought = outside.value(Bundle::from_bits(1), &mut steps);
    let sold = outside.value(Bundle::from_bits(2), &mut steps);
    assert!(rt; [bought, sold, outside.value(both, &mut steps)] == [Some(-7), Some(7), Some(0)]);
    let shapes = [
        (taxed.trades(), taxed.bound()),
        (outside.trades(), outside.bound()),
    ];
    let sides = [outside.side(0), outside.side(1)];
    assert!(rt; (shapes, sides) == ([(2, 80), (2, 7)], [Side::Buy, Side::Sell]));
}

#[test]
fn graph_of_two_stalls(rt: HostRuntime) {
    let market = two_stalls(rt.alloc()).expect(&rt, "memory");
    let mut graph = Graph::new(rt.alloc(), 3).expect(&rt, "memory");
    let none = TradeSet::<1>::empty();
    let mut one = none;
    one.toggle(0);
    let mut both = one;
    both.toggle(1);
    let mut steps = Steps::new(Asked);
    graph.lay_out(&market, &none);
    graph.admit(&market, 0, &none, &one, &mut steps);
    let admitted = [graph.cost(0, 2), graph.cost(2, 0)];
    graph.fill(&market, &none, &mut steps);
    let filled = rows_of(&graph);
    graph.refresh(&market, &none, &one, &both, &mut steps);
    let refreshed = rows_of(&graph);
    drop(graph);
    assert!(rt;
        (admitted, filled, refreshed)
            == (
                [Some(3), Some(-5)],
                [[None, Some(-2), Some(3)], [Some(-5), Some(-5), None]],
                [[None, None, Some(5)], [Some(-3), Some(-5), None]],
            )
    );
}

/// The costs of the arcs from the first node and from null, of a graph with three nodes.
fn rows_of(graph: &Graph) -> [[Option<i128>; 3]; 2]
    requires { 2 < graph.now.nodes }
{
    [
        [graph.cost(0, 0), graph.cost(0, 1), graph.cost(0, 2)],
        [graph.cost(2, 0), graph.cost(2, 1), graph.cost(2, 2)],
    ]
}

/// The two nodes of a walk, None where it has more or less.
fn two_nodes(nodes: &Nodes) -> Option<[Option<u32>; 2]> {
    if nodes.len() == 2 {
        Some([nodes.at(0), nodes.at(1)])
    } else {
        None
    }
}

/// The cost of a cycle through two nodes, and the nodes.
fn cycle_of(support: Support) -> Option<(i128, [Option<u32>; 2])> {
    match support {
        Support::Cycle { nodes, cost } => match two_nodes(&nodes) {
            Some(two) => Some((cost, two)),
            None => None,
        },
        _ => None,
    }
}

/// The prices of two trades.
fn prices_of(support: Support) -> Option<[i128; 2]> {
    match support {
        Support::Supported { prices } => {
            if prices.len() == 2 {
                Some([prices.at(0), prices.at(1)])
            } else {
                None
            }
        }
        _ => None,
    }
}

/// With nothing on the two trades gain 4 together, with one on the other gains 2, and prices stand beside both.
#[test]
fn prices_for_two_stalls(rt: HostRuntime) {
    let market = two_stalls(rt.alloc()).expect(&rt, "memory");
    let mut on = TradeSet::<1>::empty();
    let mut steps = Steps::new(Asked);
    let none = cycle_of(support(rt.alloc(), &market, &on, &mut steps).expect(&rt, "memory"));
    on.toggle(0);
    let one = cycle_of(support(rt.alloc(), &market, &on, &mut steps).expect(&rt, "memory"));
    on.toggle(1);
    let prices = prices_of(support(rt.alloc(), &market, &on, &mut steps).expect(&rt, "memory"));
    let cycles = [Some((-4, [Some(0), Some(1)])), Some((-2, [None, Some(1)]))];
    assert!(rt; ([none, one], prices) == (cycles, Some([-3, -3])));
}

/// Over the prices that support both trades, which are within the ranges.
#[test]
fn ranges_of_two_stalls(rt: HostRuntime) {
    let market = two_stalls(rt.alloc()).expect(&rt, "memory");
    let mut on = TradeSet::<1>::empty();
    on.toggle(0);
    on.toggle(1);
    let mut steps = Steps::new(Asked);
    match support(rt.alloc(), &market, &on, &mut steps).expect(&rt, "memory") {
        Support::Supported { prices } => {
            let ranges = range(rt.alloc(), &market, &on, &prices, &mut steps).expect(&rt, "memory");
            assert!(rt; ranges.len() == 2);
            let second = ranges.at(1);
            let paths = [two_nodes(&second.low_path), two_nodes(&second.high_path)];
            let wanted = [Some([Some(1), None]), Some([None, Some(1)])];
            assert!(rt; ([second.low, second.high], paths) == ([Some(-5), Some(-3)], wanted));
        }
        _ => assert!(rt; false),
    }
}

#[test]
fn solves_two_stalls(rt: HostRuntime) {
    let market = two_stalls(rt.alloc()).expect(&rt, "memory");
    let mut solver = Solver::<1>::with_room(rt.alloc(), &market).expect(&rt, "memory");
    let mut steps = Steps::new(Asked);
    solver.solve_in(&market, &mut steps);
    let on = [solver.on().has(0), solver.on().has(1)];
    let prices = [solver.price(0), solver.price(1)];
    solver.solve_among(&market, &TradeSet::empty(), &mut steps);
    assert!(rt; (on, prices, solver.on().count()) == ([true, true], [-3, -3], 0));
}

#[test]
fn admits_and_bars_two_stalls(rt: HostRuntime) {
    let market = two_stalls(rt.alloc()).expect(&rt, "memory");
    let mut steps = Steps::new(Asked);
    let mut session = Session::<Stall, 1>::begin(rt.alloc(), &market, &mut steps).expect(
        &rt, "memory",
    );
    let counts = [session.admitted().count(), session.on().count()];
    let barred = session.bar(0, &mut steps);
    let admitted = session.admit(0, &mut steps);
    let edited = [barred, admitted, session.admit(0, &mut steps)];
    let price = session.price(0);
    let one = [session.on().has(0), session.on().has(1)];
    let admitted = session.admit(1, &mut steps);
    let both = [session.on().has(0), session.on().has(1)];
    let barred = session.bar(0, &mut steps);
    let left = [session.admitted().has(0), session.admitted().has(1)];
    let last = [session.on().has(0), session.on().has(1)];
    let prices = [price, session.price(1)];
    drop(session);
    assert!(rt;
        (
            counts,
            edited,
            [one, both, [admitted, barred]],
            (left, last, prices)
        ) == (
            [0, 0],
            [false, true, false],
            [[true, false], [true; 2], [true; 2]],
            ([false, true], [false, true], [-3, -3]),
        )
    );
}
