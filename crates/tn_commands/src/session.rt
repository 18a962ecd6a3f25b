//! The answer of `session`.

ghost use Rattle.std.specs.Prelude.{◌≡◌, ◌≢◌, ℕ, ◌+◌, ◌*◌, ◌<◌, ◌≤◌, List, [], ◌∷◌, ◌++◌, ◌&&◌, not, All, IfOk, length, map, take};
ghost use Rattle.tn_base.specs.Sets.{has};
ghost use Rattle.tn_answer.specs.Kept.{IsWithinClaims, IsWithinState};
ghost use Rattle.tn_commands.specs.Session.{AreAfter, AreStates, IsAfter, IsStateOf, StandsAfter, StandsOn, TellsStates, edit_worths, is_admitted_by, is_away_by};
ghost use Rattle.tn_commands.specs.Limits.{AreWorthsAnswered, most_answered_trades};
ghost use Rattle.tn_firm.specs.Firms.{firm_of};
ghost use Rattle.tn_model.specs.Prices.{price_at};
ghost use Rattle.tn_model.specs.Choices.{contracts_of};
ghost use Rattle.tn_said.specs.declared.session.Edit.{Edit};
ghost use Rattle.tn_session.specs.Standing.{HasSmallPrices, HoldsEquilibrium};
ghost use Rattle.tn_market.specs.Graph.{graph_worths};
ghost use Rattle.tn_market.specs.NetworkOf.{network_of};

use crate::solve::{FEW_TRADES, surplus, trades_on};
use std::alloc::Global;
use tn_base::{Asked, OutOfMemory, Steps, TradeSet};
use tn_firm::FirmValue;
use tn_market::{Contract, Contracts, Ends, Market};
use tn_said::{Edit, Edits, Said, State, States};
use tn_session::Session;

/// The trades that a session admits at their prices, ascending.
fn admitted_prices(
    alloc: Global,
    session: &Session<FirmValue, 16>,
    count: u32,
) -> Result<Contracts, OutOfMemory>
    requires few { count ≤ most_answered_trades }
    requires counted { count ≡ length session.now.market.trades }
    ensures { IfOk result (λ contracts. contracts ≡ contracts_of session.now.admitted
        (price_at session.now.solution.prices) count) }
{
    let mut contracts = Vec::new(alloc);
    for t in 0..count {
        if session.admitted().has(t) {
            let price = session.price(t);
            contracts.push(Contract { trade: t, price })?;
        }
    }
    Ok(Contracts::from_vec(contracts))
}

/// The state of a session on a market.
fn state_of(
    alloc: Global,
    market: &Market<FirmValue>,
    session: &Session<FirmValue, 16>,
) -> Result<State, OutOfMemory>
    requires wide { length market.now.trades ≤ most_answered_trades }
    requires stands { StandsOn market.now.firms market.now.trades session.now }
    ensures state { IfOk result (network_of firm_of market.now IsStateOf session.now.admitted) }
    ensures within { IfOk result IsWithinState }
{
    let count = market.trades();
    Ok(State {
        on: trades_on(alloc, session.on(), count)?,
        prices: admitted_prices(alloc, session, count)?,
        surplus: surplus(market, session.on()),
    })
}

/// What edits have said so far. A trade can be used where it is admitted and neither of its firms is away.
#[derive(Drop)]
struct Kept {
    /// The trades that are admitted.
    admitted: TradeSet<16>,
    /// The trades of which the seller is away.
    seller_away: TradeSet<16>,
    /// The trades of which the buyer is away.
    buyer_away: TradeSet<16>,
}

/// What is so before all edits: no trade is admitted, and no firm is away.
fn nothing_kept() -> Kept
    ensures { result ≡ record { admitted = 0; seller_away = 0; buyer_away = 0 } }
{
    Kept {
        admitted: TradeSet::empty(),
        seller_away: TradeSet::empty(),
        buyer_away: TradeSet::empty(),
    }
}

/// Whether trade `t` is admitted after an edit, by whether it was before it.
fn is_admitted_by(t: u32, edit: Edit, before: bool) -> bool
    ensures { result ≡ is_admitted_by t edit before }
{
    match edit {
        Edit::Admit(s) => t == s || before,
        Edit::Bar(s) => t != s && before,
        Edit::AdmitAll => true,
        Edit::BarAll => false,
        Edit::Leave(_) => before,
        Edit::Join(_) => before,
    }
}

/// Whether firm `f` is away after an edit, by whether it was before it.
fn is_away_by(f: u32, edit: Edit, before: bool) -> bool
    ensures { result ≡ is_away_by f edit before }
{
    match edit {
        Edit::Leave(g) => f == g || before,
        Edit::Join(g) => f != g && before,
        Edit::Admit(_) => before,
        Edit::Bar(_) => before,
        Edit::AdmitAll => before,
        Edit::BarAll => before,
    }
}

/// Puts a trade into a set or takes it out.
fn put(set: &mut TradeSet<16>, t: u32, is_in: bool)
    requires { t < most_answered_trades }
    ensures here { has set.new t ≡ is_in }
    ensures elsewhere { (k : ℕ) → k ≢ t → has set.new k ≡ has set.old k }
{
    if set.has(t) != is_in {
        set.toggle(t);
    }
}

/// Whether trade `t` can be used.
fn is_usable(kept: &Kept, t: u32) -> bool
    requires { t < most_answered_trades }
    ensures { result ≡ ((has kept.now.admitted t && not (has kept.now.seller_away t))
        && not (has kept.now.buyer_away t)) }
{
    kept.admitted.has(t) && !kept.seller_away.has(t) && !kept.buyer_away.has(t)
}

/// Admits or bars a trade in a session.
fn put_to_use(session: &mut Session<FirmValue, 16>, t: u32, used: bool, steps: &mut Steps<Asked>)
    requires { t < length session.old.market.trades }
    ensures here { has session.new.admitted t ≡ used }
    ensures elsewhere { (k : ℕ) → k ≢ t → has session.new.admitted k ≡ has session.old.admitted k }
    ensures market { session.new.market ≡ session.old.market }
    ensures equilibrium { HoldsEquilibrium firm_of session.new }
    ensures prices { HasSmallPrices firm_of session.new }
    ensures asked { steps.new ≤ steps.old + graph_worths (map firm_of session.old.market.firms) }
{
    if used {
        session.admit(t, steps);
    } else {
        session.bar(t, steps);
    }
}

/// Keeps what an edit says of trade `t`, and answers whether the trade can be used then.
fn keep_edit(kept: &mut Kept, edit: Edit, t: u32, trade: Ends) -> bool
    requires { t < most_answered_trades }
    ensures here { (edits : List Edit) (used next : ℕ) → IsAfter edits t trade kept.old used → has next t ≡ result
        → IsAfter (edits ++ edit ∷ []) t trade kept.new next }
    ensures elsewhere { (edits : List Edit) (k : ℕ) (other : _) (used next : ℕ) → k ≢ t
        → IsAfter edits k other kept.old used → has next k ≡ has used k → IsAfter edits k other kept.new next }
{
    let is_admitted = is_admitted_by(t, edit, kept.admitted.has(t));
    let is_seller_away = is_away_by(trade.seller, edit, kept.seller_away.has(t));
    let is_buyer_away = is_away_by(trade.buyer, edit, kept.buyer_away.has(t));
    put(&mut kept.admitted, t, is_admitted);
    put(&mut kept.seller_away, t, is_seller_away);
    put(&mut kept.buyer_away, t, is_buyer_away);
    is_usable(kept, t)
}

/// Makes an edit at trade `t` alone.
fn make_at(
    session: &mut Session<FirmValue, 16>,
    kept: &mut Kept,
    edit: Edit,
    t: u32,
    trade: Ends,
    steps: &mut Steps<Asked>,
)
    requires few { t < most_answered_trades }
    requires inside { t < length session.old.market.trades }
    ensures stands { (firms : _) (trades : _) → StandsOn firms trades session.old → StandsOn firms trades session.new }
    ensures here { (edits : List Edit) → IsAfter edits t trade kept.old session.old.admitted
        → IsAfter (edits ++ edit ∷ []) t trade kept.new session.new.admitted }
    ensures elsewhere { (edits : List Edit) (k : ℕ) (other : _) → k ≢ t
        → IsAfter edits k other kept.old session.old.admitted
        → IsAfter edits k other kept.new session.new.admitted }
    ensures asked { steps.new ≤ steps.old + graph_worths (map firm_of session.old.market.firms) }
{
    let used = keep_edit(kept, edit, t, trade);
    put_to_use(session, t, used, steps);
}

/// Makes the edit with index `k`, trade by trade.
fn make_each(
    session: &mut Session<FirmValue, 16>,
    kept: &mut Kept,
    market: &Market<FirmValue>,
    edits: &Edits,
    k: usize,
    steps: &mut Steps<Asked>,
)
    requires wide { length market.now.trades ≤ most_answered_trades }
    requires known { k < length edits.now }
    requires stands { StandsAfter market.now.firms market.now.trades (take k edits.now) kept.old session.old }
    ensures stands { StandsAfter market.now.firms market.now.trades (take (k + 1) edits.now) kept.new session.new }
    ensures asked { steps.new ≤ steps.old + edit_worths (map firm_of market.now.firms) market.now.trades }
{
    let edit = *edits.at(k);
    for t in 0..market.trades() {
        make_at(session, kept, edit, t, market.ends(t), steps);
    }
}

/// Keeps what an edit says of trade `t`, and puts the trade into a set where it can be used then.
fn keep_at(kept: &mut Kept, used: &mut TradeSet<16>, edit: Edit, t: u32, trade: Ends)
    requires { t < most_answered_trades }
    ensures here { (edits : List Edit) → IsAfter edits t trade kept.old used.old
        → IsAfter (edits ++ edit ∷ []) t trade kept.new used.new }
    ensures elsewhere { (edits : List Edit) (k : ℕ) (other : _) → k ≢ t → IsAfter edits k other kept.old used.old
        → IsAfter edits k other kept.new used.new }
{
    let is_used = keep_edit(kept, edit, t, trade);
    put(used, t, is_used);
}

/// Keeps what an edit says of each trade, and makes a set that of the trades that can be used then.
fn keep_all(kept: &mut Kept, used: &mut TradeSet<16>, market: &Market<FirmValue>, edit: Edit)
    requires wide { length market.now.trades ≤ most_answered_trades }
    ensures { (edits : List Edit) → AreAfter market.now.trades edits kept.old used.old
        → AreAfter market.now.trades (edits ++ edit ∷ []) kept.new used.new }
{
    for t in 0..market.trades() {
        keep_at(kept, used, edit, t, market.ends(t));
    }
}

/// Makes the edit with index `k` at all trades at once.
fn make_together(
    session: &mut Session<FirmValue, 16>,
    kept: &mut Kept,
    market: &Market<FirmValue>,
    edits: &Edits,
    k: usize,
    steps: &mut Steps<Asked>,
)
    requires wide { length market.now.trades ≤ most_answered_trades }
    requires known { k < length edits.now }
    requires stands { StandsAfter market.now.firms market.now.trades (take k edits.now) kept.old session.old }
    ensures stands { StandsAfter market.now.firms market.now.trades (take (k + 1) edits.now) kept.new session.new }
    ensures asked { steps.new ≤ steps.old + edit_worths (map firm_of market.now.firms) market.now.trades }
{
    let mut used = *session.admitted();
    keep_all(kept, &mut used, market, *edits.at(k));
    session.admit_only(&used, steps);
}

/// Makes the edit with index `k`. Prices are the same either way; but where several sets of trades are efficient, trade
/// by trade may lead to another one, so markets of at most 128 trades keep to that.
fn make(
    session: &mut Session<FirmValue, 16>,
    kept: &mut Kept,
    market: &Market<FirmValue>,
    edits: &Edits,
    k: usize,
    steps: &mut Steps<Asked>,
)
    requires wide { length market.now.trades ≤ most_answered_trades }
    requires known { k < length edits.now }
    requires stands { StandsAfter market.now.firms market.now.trades (take k edits.now) kept.old session.old }
    ensures stands { StandsAfter market.now.firms market.now.trades (take (k + 1) edits.now) kept.new session.new }
    ensures asked { steps.new ≤ steps.old + edit_worths (map firm_of market.now.firms) market.now.trades }
{
    if market.trades() <= FEW_TRADES {
        make_each(session, kept, market, edits, k, steps);
    } else {
        make_together(session, kept, market, edits, k, steps);
    }
}

/// The state after each of some edits, of a session that admits no trade before them.
fn states_from(
    alloc: Global,
    market: &Market<FirmValue>,
    edits: &Edits,
    session: &mut Session<FirmValue, 16>,
    steps: &mut Steps<Asked>,
) -> Result<States, OutOfMemory>
    requires wide { length market.now.trades ≤ most_answered_trades }
    requires stands { StandsOn market.now.firms market.now.trades session.old }
    requires none_admitted { session.old.admitted ≡ 0 }
    ensures states { IfOk result (network_of firm_of market.now AreStates edits.now) }
    ensures within { IfOk result (All IsWithinState) }
    ensures asked { steps.new ≤ steps.old + length edits.now * edit_worths (map firm_of market.now.firms)
        market.now.trades }
{
    let mut kept = nothing_kept();
    let mut states = Vec::with_capacity(alloc, edits.len())?;
    for k in 0..edits.len() {
        make(session, &mut kept, market, edits, k, steps);
        states.push(state_of(alloc, market, session)?)?;
    }
    Ok(States::from_vec(states))
}

/// An equilibrium of the market of the trades that can be used, after each of some edits. At first no trade is admitted
/// and no firm is away. There are at most 1,024 trades, and worths are small enough for so many.
pub fn answer_session(
    alloc: Global,
    market: &Market<FirmValue>,
    edits: &Edits,
) -> Result<Said, OutOfMemory>
    requires wide { length market.now.trades ≤ most_answered_trades }
    requires worths { network_of firm_of market.now AreWorthsAnswered }
    ensures answer { IfOk result (network_of firm_of market.now TellsStates edits.now) }
    ensures within { IfOk result IsWithinClaims }
{
    let mut steps = Steps::new(Asked);
    let mut session = Session::<FirmValue, 16>::begin(alloc, market, &mut steps)?;
    let states = states_from(alloc, market, edits, &mut session, &mut steps);
    drop(session);
    Ok(Said::Session { edits: states? })
}
