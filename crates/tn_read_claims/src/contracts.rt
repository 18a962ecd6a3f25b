//! The contracts of a claim.

ghost use Rattle.serde_json.specs.View.{view, items_view};
ghost use Rattle.tn_read_shapes.specs.Reading.{Gives, each};
ghost use Rattle.tn_read_parts.specs.Lists.{list_place};
ghost use Rattle.tn_read_claims.specs.Members.{claimed_contracts, no_offers, one_offer};

use serde_json::Value;
use std::alloc::Global;
use tn_base::TradeSet;
use tn_model::{Contract, Contracts};
use tn_read_parts::{ListAt, price_of};
use tn_read_references::Head;
use tn_read_shapes::{ReadError, list, member};
use tn_said::PlaceStep::Key;
use tn_said::Word;

/// The claim's contracts, in the order of the list.
#[tactic(auto, unfolding(crate::specs::Members::claimed_contracts))]
pub(crate) fn contracts_of(
    alloc: Global,
    head: &Head,
    claim: &Value,
) -> Result<Contracts, ReadError>
    ensures { Gives (λ contracts. contracts) result
        (claimed_contracts head.now (view claim.now)) }
{
    let at = ListAt {
        part: Key(Word::Claim),
        member: Key(Word::Contracts),
    };
    let entries = list(alloc, member(claim, Word::Contracts), &[at.part, at.member])?;
    let (_, contracts) = each_offer(alloc, head, at, head.limits().number, entries)?;
    Ok(Contracts::from_vec(contracts))
}

/// The contracts of entries, one after the other, and the trades that they are on.
fn each_offer(
    alloc: Global,
    head: &Head,
    at: ListAt,
    limit: u64,
    entries: &[Value],
) -> Result<(TradeSet<16>, Vec<Contract>), ReadError>
    ensures { Gives (λ p. record { named = p.0; contracts = p.1.items }) result
        (each (one_offer head.now.names.trades (list_place at) limit) no_offers (items_view entries.now)) }
{
    let mut named = TradeSet::empty();
    let mut contracts = Vec::new(alloc);
    for entry in entries {
        add_offer(alloc, head, at, limit, &mut named, &mut contracts, entry)?;
    }
    Ok((named, contracts))
}

/// Puts one more contract to the contracts, and its trade to their trades.
#[tactic(auto, unfolding(crate::specs::Members::one_offer))]
fn add_offer(
    alloc: Global,
    head: &Head,
    at: ListAt,
    limit: u64,
    named: &mut TradeSet<16>,
    contracts: &mut Vec<Contract>,
    entry: &Value,
) -> Result<(), ReadError>
    ensures { Gives (λ _. record { named = named.new; contracts = contracts.new.items }) result
        (one_offer head.now.names.trades (list_place at) limit
        (record { named = named.old; contracts = contracts.old.items }) (view entry.now)) }
{
    let (trade, price) = price_of(alloc, head, at, limit, named, entry)?;
    contracts.push(Contract { trade, price })?;
    named.toggle(trade);
    Ok(())
}
