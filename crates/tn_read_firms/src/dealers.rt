//! Dealers.

ghost use Rattle.std.specs.Prelude.{◌≡◌, ◌*◌, ◌≤◌, ◌++◌, ◌∷◌, [], length};
ghost use Rattle.std.specs.List.{list_any};
ghost use Rattle.serde_json.specs.View.{view, items_view};
ghost use Rattle.tn_dealer.specs.Firms.{firm_of};
ghost use Rattle.tn_model.specs.Limits.{most_own_trades};
ghost use Rattle.tn_read_firms.specs.Dealers.{dealer_of, is_same_pair, one_pair, pair_of};
ghost use Rattle.tn_read_references.specs.Ordered.{AreTrades, sides_of};
ghost use Rattle.tn_read_shapes.specs.Reading.{Gives, each};

use serde_json::Value;
use std::alloc::Global;
use tn_base::Side;
use tn_dealer::{Dealer, Pair};
use tn_read_references::{Head, own_position, sides_of};
use tn_read_shapes::{ReadError, member, number, optional_list, require, three};
use tn_said::PlaceStep::{Index, Key};
use tn_said::{FaultKind, Word};

/// The dealer `f`.
#[tactic(auto, unfolding(crate::specs::Dealers::dealer_of))]
pub(crate) fn dealer_of(
    alloc: Global,
    head: &Head,
    f: u32,
    firm: &Value,
) -> Result<Dealer, ReadError>
    requires few { length (sides_of head.now.ends f) ≤ most_own_trades }
    ensures { Gives firm_of result
        (dealer_of head.now f (view firm.now)) }
{
    let sides = sides_of(alloc, head.ends(), f)?;
    let place = [Key(Word::Firms), Index(f), Key(Word::Pairs)];
    let entries = optional_list(alloc, member(firm, Word::Pairs), &place)?;
    let pairs = read_pairs(alloc, head, f, entries)?;
    Ok(Dealer::of_different(alloc, sides, pairs)?)
}

/// The pairs of the entries, of which none is repeated.
fn read_pairs(alloc: Global, head: &Head, f: u32, entries: &[Value]) -> Result<Vec<Pair>, ReadError>
    requires trades { AreTrades head.now }
    requires few { length (sides_of head.now.ends f) ≤ most_own_trades }
    ensures { Gives (λ pairs. pairs.items) result
        (each (one_pair head.now f) [] (items_view entries.now)) }
{
    let mut pairs = Vec::new(alloc);
    for entry in entries {
        let pair = new_pair(alloc, head, f, &pairs, entry)?;
        pairs.push(pair)?;
    }
    Ok(pairs)
}

/// One more pair, which has not the purchase and the sale of an earlier one.
#[tactic(auto, unfolding(crate::specs::Dealers::one_pair))]
fn new_pair(
    alloc: Global,
    head: &Head,
    f: u32,
    pairs: &[Pair],
    entry: &Value,
) -> Result<Pair, ReadError>
    requires { length pairs.now ≤ most_own_trades * most_own_trades }
    ensures { Gives (λ pair. pairs.now ++ pair ∷ []) result
        (one_pair head.now f pairs.now (view entry.now)) }
{
    let k = pairs.len() as u32;
    let pair = pair_of(alloc, head, f, k, entry)?;
    let place = [Key(Word::Firms), Index(f), Key(Word::Pairs), Index(k)];
    require(alloc, !is_listed(&pair, pairs), FaultKind::SamePair, &place)?;
    Ok(pair)
}

/// Whether a list has the purchase and the sale of a pair.
fn is_listed(pair: &Pair, pairs: &[Pair]) -> bool
    ensures { result ≡ list_any (is_same_pair pair.now) pairs.now }
{
    pairs.iter().any(|earlier| earlier.buy == pair.buy && earlier.sell == pair.sell)
}

/// The pair of an entry.
#[tactic(auto, unfolding(crate::specs::Dealers::pair_of))]
fn pair_of(alloc: Global, head: &Head, f: u32, k: u32, entry: &Value) -> Result<Pair, ReadError>
    ensures { Gives (λ pair. pair) result
        (pair_of head.now f k (view entry.now)) }
{
    let (f_step, k_step) = (Index(f), Index(k));
    let (purchase, sale, cost) = three(
        alloc,
        entry,
        &[Key(Word::Firms), f_step, Key(Word::Pairs), k_step],
    )?;
    let place = [Key(Word::Firms), f_step, Key(Word::Pairs), k_step, Index(0)];
    let buy = own_position(alloc, head, f, Some(Side::Buy), purchase, &place)?;
    let place = [Key(Word::Firms), f_step, Key(Word::Pairs), k_step, Index(1)];
    let sell = own_position(alloc, head, f, Some(Side::Sell), sale, &place)?;
    let place = [Key(Word::Firms), f_step, Key(Word::Pairs), k_step, Index(2)];
    let cost = number(alloc, head.limits().amount, Some(cost), &place)?;
    Ok(Pair { buy, sell, cost })
}
