//! The answer of `session` to a document whose trades have units.

ghost use Rattle.std.specs.Prelude.{◌≡◌, ◌<◌, ◌≤◌, List, [], ◌∷◌, ◌++◌, cond, length, map, nat_lt, unwrap_or, All, IfOk, OnOk};
ghost use Rattle.std.specs.List.{range_with_len};
ghost use Rattle.tn_answer.specs.Kept.{IsWithinClaims, IsWithinUnitState};
ghost use Rattle.tn_counts.specs.Counts.{trade_at};
ghost use Rattle.tn_counts.specs.Markets.{AreBetween};
ghost use Rattle.tn_counts.specs.Widths.{most_unit_firms, most_unit_trades};
ghost use Rattle.tn_read_unit_parts.specs.Edited.{AreUnitEdits, IsKnownUnitEdit};
ghost use Rattle.tn_read_units.specs.Worths.{written_firms};
ghost use Rattle.tn_tree.specs.Lists.{count_in};
ghost use Rattle.tn_said.specs.declared.session.UnitEdit.{UnitEdit};
ghost use Rattle.tn_unit_answers.specs.Session.{AreUnitStates, IsUnitState, TellsUnitStates, admitted_by, away_by, going, price_entry, priced, usable_trade, usable_trades};
ghost use Rattle.tn_unit_answers.specs.Standing.{IsStanding, StandsAfter, away_in, usable_now};

use crate::bundles::add_units;
use std::alloc::Global;
use tn_base::OutOfMemory;
use tn_counts::{UnitMarket, UnitTrade};
use tn_model::{Contract, Contracts};
use tn_read_units::{UnitDocument, market_of};
use tn_said::{Said, UnitBundle, UnitEdit, UnitEdits, UnitState, UnitStates};
use tn_tree::{Solved, solve_market};

/// What is kept from edit to edit.
#[derive(Drop)]
pub(crate) struct Standing {
    /// The market, whose trades have the units that were usable at last.
    market: UnitMarket,
    /// How many units of each trade are admitted.
    admitted: Vec<u32>,
    /// Whether each firm is away.
    away: Vec<bool>,
}

/// How many units of a trade are admitted after an edit, of which so many were before it.
fn admitted_by(t: u32, units: u32, edit: UnitEdit, before: u32) -> u32
    ensures { result ≡ unwrap_or (admitted_by t units edit) before }
{
    match edit {
        UnitEdit::Admit { trade, units } => { if t == trade { units } else { before } }
        UnitEdit::AdmitAll => units,
        UnitEdit::BarAll => 0,
        UnitEdit::Leave(_) | UnitEdit::Join(_) => before,
    }
}

/// Whether a firm is away after an edit, by whether it was before it.
fn away_by(f: u32, edit: UnitEdit, before: bool) -> bool
    ensures { result ≡ unwrap_or (away_by f edit) before }
{
    match edit {
        UnitEdit::Leave(firm) => f == firm || before,
        UnitEdit::Join(firm) => f != firm && before,
        UnitEdit::Admit { .. } | UnitEdit::AdmitAll | UnitEdit::BarAll => before,
    }
}

/// How many units of each trade are admitted after an edit.
fn admitted_then(
    alloc: Global,
    trades: &[UnitTrade],
    before: &[u32],
    edit: UnitEdit,
) -> Result<Vec<u32>, OutOfMemory>
    requires few { length trades.now ≤ most_unit_trades }
    requires counted { length before.now ≡ length trades.now }
    ensures { IfOk result (λ after. after.items
        ≡ map (λ t. unwrap_or (admitted_by t (trade_at trades.now t).units edit) (count_in before.now t))
        (range_with_len 0 (length trades.now))) }
{
    let mut after = Vec::new(alloc);
    for t in 0..trades.len() {
        after.push(admitted_by(t as u32, trades[t].units, edit, before[t]))?;
    }
    Ok(after)
}

/// Whether each firm is away after an edit.
fn away_then(alloc: Global, before: &[bool], edit: UnitEdit) -> Result<Vec<bool>, OutOfMemory>
    requires few { length before.now ≤ most_unit_firms }
    ensures { IfOk result (λ after. after.items
        ≡ map (λ f. unwrap_or (away_by f edit) (away_in before.now f)) (range_with_len 0 (length before.now))) }
{
    let mut after = Vec::new(alloc);
    for f in 0..before.len() {
        after.push(away_by(f as u32, edit, before[f]))?;
    }
    Ok(after)
}

/// A trade of which so many units are admitted, with its usable units.
fn usable_trade(trade: UnitTrade, admitted: u32, away: &[bool]) -> UnitTrade
    requires seller { trade.seller < length away.now }
    requires buyer { trade.buyer < length away.now }
    ensures { result ≡ usable_trade admitted (away_in away.now) trade }
{
    let units = if away[trade.seller as usize] {
        0
    } else if away[trade.buyer as usize] {
        0
    } else {
        admitted
    };
    UnitTrade {
        seller: trade.seller,
        buyer: trade.buyer,
        units,
    }
}

/// The trades with their usable units.
fn usable_trades(
    alloc: Global,
    trades: &[UnitTrade],
    admitted: &[u32],
    away: &[bool],
) -> Result<Vec<UnitTrade>, OutOfMemory>
    requires counted { length admitted.now ≡ length trades.now }
    requires between { AreBetween (length away.now) trades.now }
    ensures { IfOk result (λ usable. usable.items
        ≡ usable_trades (count_in admitted.now) (away_in away.now) trades.now) }
{
    let mut usable = Vec::new(alloc);
    for t in 0..trades.len() {
        usable.push(usable_trade(trades[t], admitted[t], away))?;
    }
    Ok(usable)
}

/// The trades of which some units go.
fn going(alloc: Global, counts: &[u32]) -> Result<UnitBundle, OutOfMemory>
    requires { length counts.now ≤ most_unit_trades }
    ensures { IfOk result (λ on. on ≡ going counts.now) }
{
    let mut bundle = Vec::new(alloc);
    for t in 0..counts.len() {
        add_units(&mut bundle, t as u32, counts[t])?;
    }
    Ok(UnitBundle::from_vec(bundle))
}

/// Puts a trade at its price to the others, where it has some units.
fn add_price(
    contracts: &mut Vec<Contract>,
    trade: u32,
    units: u32,
    prices: &[i128],
) -> Result<(), OutOfMemory>
    requires { trade < length prices.now }
    ensures { OnOk result (contracts.new.items
        ≡ contracts.old.items ++ cond (nat_lt 0 units) (price_entry prices.now trade ∷ []) []) }
{
    if 0 < units {
        contracts.push(Contract {
            trade,
            price: prices[trade as usize],
        })?;
    }
    Ok(())
}

/// The prices of the trades with a unit.
fn priced(alloc: Global, trades: &[UnitTrade], prices: &[i128]) -> Result<Contracts, OutOfMemory>
    requires few { length trades.now ≤ most_unit_trades }
    requires priced { length prices.now ≡ length trades.now }
    ensures { IfOk result (λ contracts. contracts ≡ priced trades.now prices.now) }
{
    let mut contracts = Vec::new(alloc);
    for t in 0..trades.len() {
        add_price(&mut contracts, t as u32, trades[t].units, prices)?;
    }
    Ok(Contracts::from_vec(contracts))
}

/// What is said of an equilibrium of trades with usable units.
fn state_of(alloc: Global, trades: &[UnitTrade], solved: &Solved) -> Result<UnitState, OutOfMemory>
    requires few { length trades.now ≤ most_unit_trades }
    requires counted { length solved.now.counts.items ≡ length trades.now }
    requires priced { length solved.now.prices.items ≡ length trades.now }
    ensures on { IfOk result (λ state. state.on ≡ going solved.now.counts.items) }
    ensures prices { IfOk result (λ state. state.prices ≡ priced trades.now solved.now.prices.items) }
    ensures surplus { IfOk result (λ state. state.surplus ≡ solved.now.surplus) }
{
    let on = going(alloc, &solved.counts)?;
    let prices = priced(alloc, trades, &solved.prices)?;
    Ok(UnitState {
        on,
        prices,
        surplus: solved.surplus,
    })
}

/// How a session begins: no unit is admitted, and all firms are there.
fn begin(alloc: Global, document: &UnitDocument) -> Result<Standing, OutOfMemory>
    ensures standing { IfOk result (IsStanding document.now) }
    ensures after { IfOk result (StandsAfter document.now []) }
{
    let admitted = vec![in alloc; 0; document.trades().len()]?;
    let away = vec![in alloc; false; document.firms().len()]?;
    let market = market_of(alloc, document)?;
    Ok(Standing {
        market,
        admitted,
        away,
    })
}

/// Keeps what an edit says.
fn take_edit(
    alloc: Global,
    document: &UnitDocument,
    edit: UnitEdit,
    standing: &mut Standing,
) -> Result<(), OutOfMemory>
    requires standing { IsStanding document.now standing.old }
    requires known { IsKnownUnitEdit (length document.now.head.names.firms) document.now.head.trades edit }
    ensures standing { OnOk result (IsStanding document.now standing.new) }
    ensures after { (edits : List UnitEdit) → StandsAfter document.now edits standing.old
        → OnOk result (StandsAfter document.now (edits ++ edit ∷ []) standing.new) }
{
    let admitted = admitted_then(alloc, document.trades(), &standing.admitted, edit)?;
    let away = away_then(alloc, &standing.away, edit)?;
    standing.admitted = admitted;
    standing.away = away;
    Ok(())
}

/// The state of what is kept: an equilibrium of the usable units.
fn next_state(
    alloc: Global,
    document: &UnitDocument,
    standing: &mut Standing,
) -> Result<UnitState, OutOfMemory>
    requires { IsStanding document.now standing.old }
    ensures standing { OnOk result (IsStanding document.now standing.new) }
    ensures admitted { OnOk result (standing.new.admitted.items ≡ standing.old.admitted.items) }
    ensures away { OnOk result (standing.new.away.items ≡ standing.old.away.items) }
    ensures state { IfOk result (IsUnitState (written_firms document.now) (usable_now document.now standing.old)) }
    ensures within { IfOk result IsWithinUnitState }
{
    let trades = document.trades();
    let usable = usable_trades(alloc, trades, &standing.admitted, &standing.away)?;
    standing.market.trades = usable;
    let solved = solve_market(alloc, &standing.market)?;
    let state = state_of(alloc, &standing.market.trades, &solved)?;
    Ok(state)
}

/// A state after each edit, in order.
fn states_from(
    alloc: Global,
    document: &UnitDocument,
    edits: &UnitEdits,
) -> Result<Vec<UnitState>, OutOfMemory>
    requires { AreUnitEdits (length document.now.head.names.firms) document.now.head.trades edits.now }
    ensures states { IfOk result
        (λ states. AreUnitStates (written_firms document.now) document.now.head.trades edits.now states.items) }
    ensures within { IfOk result (λ states. All IsWithinUnitState states.items) }
{
    let _trades = document.trades();
    let mut standing = begin(alloc, document)?;
    let mut states = Vec::new(alloc);
    for k in 0..edits.len() {
        take_edit(alloc, document, *edits.at(k), &mut standing)?;
        states.push(next_state(alloc, document, &mut standing)?)?;
    }
    Ok(states)
}

/// An equilibrium by counts of the document's firms after each edit, over the units that are usable then: those that are
/// admitted of trades both of whose firms are there. At first no unit is admitted, and all firms are there. The edits are of
/// firms and trades that the document has, and of no more units than there are. It fails only where memory runs out.
pub fn answer_unit_session(
    alloc: Global,
    document: &UnitDocument,
    edits: &UnitEdits,
) -> Result<Said, OutOfMemory>
    requires { AreUnitEdits (length document.now.head.names.firms) document.now.head.trades edits.now }
    ensures answer { IfOk result (TellsUnitStates document.now edits.now) }
    ensures within { IfOk result IsWithinClaims }
{
    let states = states_from(alloc, document, edits)?;
    Ok(Said::SessionByCounts {
        edits: UnitStates::from_vec(states),
    })
}
