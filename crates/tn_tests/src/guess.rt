//! Tests of guesses: how firms are laid out, what is found, and what is let go.

ghost use Rattle.std.specs.Prelude.{◌≤◌, length};

use crate::firm::dealer;
use std::alloc::Global;
use std::test::Fail;
use tn_base::{Asked, Bundle, Side, Steps, TradeSet};
use tn_commands::{decided, guess};
use tn_drill::drill;
use tn_file::{Command, Content, ReadDocument, read_doc};
use tn_firm::FirmValue;
use tn_flow::Solver;
use tn_guess::{Flow, Sketch};
use tn_laminar::{Laminar, LaminarSet};
use tn_market::{Amounts, Arrangement, Market, Prices};
use tn_middle::Middle;
use tn_price::surplus_of;

/// The ends, the room and the cost of an arc.
fn arc(flow: &Flow, k: u32) -> (u32, u32, u32, i64) {
    (flow.from(k), flow.to(k), flow.room(k), flow.cost(k))
}

/// The flow of a firm with this purchase at position 0 and this sale at position 1, both trades of its own alone.
fn flow_of(alloc: Global, firm: &FirmValue) -> Result<Option<Flow>, Fail> {
    let mut sketch = Sketch::over(Flow::of_trades(alloc, 2)?);
    if !firm.outline(&mut sketch)? {
        return Ok(None);
    }
    sketch.join(0, 0, Side::Buy);
    sketch.join(1, 1, Side::Sell);
    Ok(Some(sketch.into_flow()))
}

/// A firm that buys at position 0 and sells at position 1: a set of both, and within it one of the purchase, of which
/// the first is worth 7.
fn nested(alloc: Global) -> Result<FirmValue, Fail> {
    let sides = vec![in alloc; Side::Buy, Side::Sell]?;
    let both = LaminarSet {
        members: Bundle::from_bits(0b11),
        low: -1,
        numbers: Amounts::from_vec(vec![in alloc; 0, 0, 0]?),
    };
    let bought = LaminarSet {
        members: Bundle::from_bits(0b01),
        low: 0,
        numbers: Amounts::from_vec(vec![in alloc; 0, 7]?),
    };
    let sets = vec![in alloc; bought, both]?;
    let firm = Laminar::new(alloc, sides, vec![in alloc; 3, -2]?, sets)?;
    Ok(FirmValue::Laminar(firm))
}

/// Each set has a node, 1 and 2; the inner one's arc leads to the outer one's, and those of the outer one to the ground
/// and back.
#[test]
fn a_laminar_firm_is_laid_out(rt: HostRuntime) -> Result<(), Fail> {
    let flow = flow_of(rt.alloc(), &nested(rt.alloc())?)?.expect(&rt, "a flow");
    assert!(rt; (arc(&flow, 0), arc(&flow, 1), flow.arcs()) == ((0, 1, 1, -3), (2, 0, 1, 2), 5));
    assert!(rt;
        [arc(&flow, 2), arc(&flow, 3), arc(&flow, 4)] == [(1, 2, 1, -7), (2, 0, 1, 0), (0, 2, 1, 0)]
    );
    Ok(())
}

/// A good goes from the node of purchases to that of sales, or is kept.
#[test]
fn a_middleman_is_laid_out(rt: HostRuntime) -> Result<(), Fail> {
    let sides = vec![in rt.alloc(); Side::Buy, Side::Sell]?;
    let firm = Middle::new(sides, vec![in rt.alloc(); 2, 3]?, Some(8));
    let flow = flow_of(rt.alloc(), &FirmValue::Middle(firm))?.expect(&rt, "a flow");
    assert!(rt; (arc(&flow, 0), arc(&flow, 1), flow.arcs()) == ((0, 1, 1, 2), (2, 0, 1, -3), 4));
    assert!(rt; (arc(&flow, 2), arc(&flow, 3)) == ((1, 2, 1, 0), (2, 0, 1, -8)));
    Ok(())
}

/// Each own trade has a node, and the pair is an arc between them.
#[test]
fn a_dealer_is_laid_out(rt: HostRuntime) -> Result<(), Fail> {
    let flow = flow_of(rt.alloc(), &dealer(rt.alloc())?)?.expect(&rt, "a flow");
    assert!(rt; (arc(&flow, 0), arc(&flow, 1), flow.arcs()) == ((0, 1, 1, 0), (2, 0, 1, 0), 3));
    assert!(rt; arc(&flow, 2) == (1, 2, 1, 2));
    Ok(())
}

/// Whether the guess at a market is an equilibrium with the surplus and the prices of the rounds.
fn agrees(alloc: Global, market: &Market<FirmValue>) -> Result<bool, Fail>
    requires { length market.now.trades ≤ 128 }
{
    let Some(at) = guess(alloc, market)? else {
        return Ok(false);
    };
    let Some(at) = decided(market, at, &mut Steps::new(Asked)) else {
        return Ok(false);
    };
    let mut solver = Solver::<16>::with_room(alloc, market)?;
    solver.solve_in(market, &mut Steps::new(Asked));
    let surplus = surplus_of(market, &at.on, &mut Steps::new(Asked));
    let same = surplus == surplus_of(market, solver.on(), &mut Steps::new(Asked));
    Ok(same && are_prices(&solver, &at.prices, market.trades()))
}

/// Whether prices are those of the rounds.
fn are_prices(solver: &Solver<16>, prices: &Prices, trades: u32) -> bool
    requires solved { trades ≤ length solver.now.prices }
    requires priced { trades ≤ length prices.now }
{
    for t in 0..trades {
        if prices.at(t as usize) != solver.price(t) {
            return false;
        }
    }
    true
}

/// Laminar firms and middlemen, drawn: 8, 24, 40 and 56 trades from different numbers.
#[test]
fn drawn_networks_are_guessed(rt: HostRuntime) -> Result<(), Fail> {
    for k in 0..4 {
        let market = drill(rt.alloc(), 16 * k + 8, k + 1)?;
        let few = market.trades() <= 128;
        assert!(rt; few && agrees(rt.alloc(), &market)?);
    }
    Ok(())
}

/// A seller of `a` to a buyer who gains 2 by it, and one who can't deliver `b`.
const STALLS: &[u8] = b"{\"version\":1,\"firms\":[\
{\"name\":\"S\",\"kind\":\"laminar\",\"amounts\":[[\"a\",-2]],\"sets\":[{\"trades\":[\"b\"],\"from\":0,\"values\":[0]}]},\
{\"name\":\"B\",\"kind\":\"laminar\",\"amounts\":[[\"a\",4],[\"b\",5]],\"sets\":[]}],\"trades\":[\
{\"name\":\"a\",\"seller\":\"S\",\"buyer\":\"B\"},{\"name\":\"b\",\"seller\":\"S\",\"buyer\":\"B\"}]}";

/// Two suppliers, a dealer and a middleman between them and two buyers.
const ALL_KINDS: &[u8] = b"{\"version\":2,\"firms\":[\
{\"name\":\"S\",\"kind\":\"laminar\",\"amounts\":[[\"s1\",-3],[\"s2\",-4],[\"m1\",-2]],\
\"sets\":[{\"trades\":[\"s1\",\"s2\",\"m1\"],\"from\":-2,\"values\":[-1,0,0]}]},\
{\"name\":\"D\",\"kind\":\"dealer\",\"pairs\":[[\"s1\",\"b1\",1],[\"s1\",\"b2\",0],[\"s2\",\"b1\",0],[\"s2\",\"b2\",2]]},\
{\"name\":\"M\",\"kind\":\"middleman\",\"costs\":[[\"m1\",1]],\"gains\":[[\"m2\",1]],\"keep\":3},\
{\"name\":\"B\",\"kind\":\"laminar\",\"amounts\":[[\"b1\",9],[\"b2\",8],[\"m2\",7]],\
\"sets\":[{\"trades\":[\"b1\",\"b2\"],\"from\":0,\"values\":[0,0,-2]}]}],\"trades\":[\
{\"name\":\"s1\",\"seller\":\"S\",\"buyer\":\"D\"},{\"name\":\"s2\",\"seller\":\"S\",\"buyer\":\"D\"},\
{\"name\":\"m1\",\"seller\":\"S\",\"buyer\":\"M\"},{\"name\":\"b1\",\"seller\":\"D\",\"buyer\":\"B\"},\
{\"name\":\"b2\",\"seller\":\"D\",\"buyer\":\"B\"},{\"name\":\"m2\",\"seller\":\"M\",\"buyer\":\"B\"}]}";

/// Whether the guess at the market of a document agrees with the rounds.
fn agrees_on(alloc: Global, bytes: &[u8]) -> Result<bool, Fail> {
    let Ok(document) = read_doc(alloc, Command::Solve, bytes) else {
        return Ok(false);
    };
    let agrees = agrees_in(alloc, &document);
    drop(document);
    agrees
}

/// The same of a document that was read.
fn agrees_in(alloc: Global, document: &ReadDocument) -> Result<bool, Fail> {
    match document {
        ReadDocument::Network(document) => match &document.content {
            Content::Market(market, _) if market.trades() <= 128 => agrees(alloc, market),
            _ => Ok(false),
        },
        ReadDocument::Units(..) => Ok(false),
    }
}

#[test]
fn all_kinds_are_guessed(rt: HostRuntime) -> Result<(), Fail> {
    assert!(rt; agrees_on(rt.alloc(), STALLS)? && agrees_on(rt.alloc(), ALL_KINDS)?);
    Ok(())
}

/// Whether these trades and prices are taken for an equilibrium.
fn is_taken(market: &Market<FirmValue>, on: TradeSet<16>, prices: Vec<i128>) -> bool
    requires { length market.now.trades ≤ 128 }
{
    let prices = Prices::from_vec(prices);
    decided(market, Arrangement { on, prices }, &mut Steps::new(Asked)).is_some()
}

/// What is taken of guesses at the first market: a right one, one that is wrong in a price, and in a trade, a price at
/// the limit and one beyond it, and too few prices.
fn taken(alloc: Global, market: &Market<FirmValue>) -> Result<[bool; 6], Fail>
    requires { length market.now.trades ≤ 128 }
{
    let none = TradeSet::empty();
    let mut first = none;
    first.toggle(0);
    Ok([
        is_taken(market, first, vec![in alloc; 3, 5]?),
        is_taken(market, first, vec![in alloc; 1, 5]?),
        is_taken(market, none, vec![in alloc; 3, 5]?),
        is_taken(market, first, vec![in alloc; 3, 100_000_000_000_000]?),
        is_taken(market, first, vec![in alloc; 3, 100_000_000_000_001]?),
        is_taken(market, first, vec![in alloc; 3]?),
    ])
}

/// The same of the market of a document, none where it has none.
fn taken_on(alloc: Global, bytes: &[u8]) -> Result<Option<[bool; 6]>, Fail> {
    let Ok(document) = read_doc(alloc, Command::Solve, bytes) else {
        return Ok(None);
    };
    let taken = taken_of(alloc, &document);
    drop(document);
    taken
}

/// The same of a document that was read.
fn taken_of(alloc: Global, document: &ReadDocument) -> Result<Option<[bool; 6]>, Fail> {
    match document {
        ReadDocument::Network(document) => match &document.content {
            Content::Market(market, _) if market.trades() <= 128 => Ok(Some(taken(alloc, market)?)),
            _ => Ok(None),
        },
        ReadDocument::Units(..) => Ok(None),
    }
}

#[test]
fn wrong_guesses_are_let_go(rt: HostRuntime) -> Result<(), Fail> {
    assert!(rt; taken_on(rt.alloc(), STALLS)? == Some([true, false, false, true, false, false]));
    Ok(())
}
