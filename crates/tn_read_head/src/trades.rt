//! Reads the trades.

ghost use Rattle.std.specs.Prelude.{◌≡◌, ◌+◌, ◌<◌, ◌≤◌, ◌++◌, [], ◌∷◌, length, IfOk, OnOk};
ghost use Rattle.serde_json.specs.View.{view, items_view};
ghost use Rattle.tn_model.specs.Limits.{most_trades};
ghost use Rattle.tn_read_shapes.specs.Reading.{Gives, each};
ghost use Rattle.tn_read_references.specs.Ordered.{AreInOrder, ComesNext};
ghost use Rattle.tn_read_head.specs.Beside.{GivesBeside};
ghost use Rattle.tn_read_head.specs.Counts.{AreOwnCounts};
ghost use Rattle.tn_read_head.specs.Naming.{ends_at, one_trade};

use crate::counts::OwnCounts;
use crate::names::read_trade_name;
use serde_json::Value;
use std::alloc::Global;
use tn_model::Ends;
use tn_names::Names;
use tn_read_references::firm;
use tn_read_shapes::{ReadError, member, require};
use tn_said::PlaceStep::Key;
use tn_said::{FaultKind, PlaceStep, Word};

/// Reads the trades, and puts their names to the names.
pub(crate) fn read_trades(
    alloc: Global,
    names: &mut Names,
    trades: &[Value],
) -> Result<Vec<Ends>, ReadError>
    requires none { length names.old.trades ≡ 0 }
    requires few { length trades.now ≤ most_trades }
    ensures gives { GivesBeside names.new
        (λ ends. record { names = names.new; ends = ends.items })
        result (each one_trade (record { names = names.old; ends = [] }) (items_view trades.now)) }
    ensures order { IfOk result (λ ends. AreInOrder (length names.new.firms) ends.items) }
    ensures count { IfOk result (λ ends. length ends.items ≡ length trades.now) }
    ensures named { OnOk result (length names.new.trades ≡ length trades.now) }
    ensures firms { OnOk result (names.new.firms ≡ names.old.firms) }
{
    let mut ends = Vec::new(alloc);
    let mut counts = OwnCounts::none(alloc, names.firms())?;
    for trade in trades {
        let next = read_trade(alloc, names, &ends, &counts, trade)?;
        counts.count(next);
        ends.push(next)?;
    }
    Ok(ends)
}

/// Puts the name of one more trade to the names, and reads its ends. The own trades of each firm before it are counted.
#[tactic(auto, unfolding(crate::specs::Naming::one_trade))]
fn read_trade(
    alloc: Global,
    names: &mut Names,
    before: &[Ends],
    counts: &OwnCounts,
    trade: &Value,
) -> Result<Ends, ReadError>
    requires counts { AreOwnCounts (length names.old.firms) before.now counts.now }
    requires count { length names.old.trades ≡ length before.now }
    requires few { length before.now < most_trades }
    ensures gives { GivesBeside names.new
        (λ ends. record { names = names.new; ends = before.now ++ ends ∷ [] })
        result (one_trade (record { names = names.old; ends = before.now }) (view trade.now)) }
    ensures next { IfOk result (ComesNext (length names.new.firms) before.now) }
    ensures count { OnOk result (length names.new.trades ≡ length before.now + 1) }
    ensures firms { OnOk result (names.new.firms ≡ names.old.firms) }
{
    read_trade_name(alloc, names, trade)?;
    read_ends(alloc, names, before, counts, trade)
}

#[tactic(auto, unfolding(crate::specs::Naming::ends_at))]
fn read_ends(
    alloc: Global,
    names: &Names,
    before: &[Ends],
    counts: &OwnCounts,
    trade: &Value,
) -> Result<Ends, ReadError>
    requires counts { AreOwnCounts (length names.now.firms) before.now counts.now }
    requires few { length before.now < most_trades }
    ensures gives { Gives (λ ends. ends) result
        (ends_at names.now.firms before.now (length before.now) (view trade.now)) }
    ensures next { IfOk result (ComesNext (length names.now.firms) before.now) }
{
    let t = PlaceStep::Index(before.len() as u32);
    let seller = firm(
        alloc,
        names,
        member(trade, Word::Seller),
        &[Key(Word::Trades), t, Key(Word::Seller)],
    )?;
    let buyer = firm(
        alloc,
        names,
        member(trade, Word::Buyer),
        &[Key(Word::Trades), t, Key(Word::Buyer)],
    )?;
    require(
        alloc,
        seller != buyer,
        FaultKind::SelfTrade,
        &[Key(Word::Trades), t],
    )?;
    Ok(Ends {
        seller,
        buyer,
        at_seller: counts.of(seller),
        at_buyer: counts.of(buyer),
    })
}
