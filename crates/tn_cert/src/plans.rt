//! Claims that a plan in parts is worth more than every set of trades, so that there are no prices.

ghost use Rattle.std.specs.Prelude.{◌≡◌, ℕ, ◌*◌, ◌^◌, ◌<◌, ◌≤◌, ◌-ℤ◌, ◌*ℤ◌, ◌≤ℤ◌, pos, ◌==◌, ◌↔◌, if◌then◌else◌, All, IfOk, IfSome, IsTrue, Some, length, map, option_map, slice_get};
ghost use Rattle.tn_base.specs.Arcs.{IsAtMost};
ghost use Rattle.tn_base.specs.Sets.{has};
ghost use Rattle.tn_cert.specs.Limits.{most_planned_worth, most_weighed_worth};
ghost use Rattle.tn_cert.specs.Plans.{FindsPlanned, FindsShares, FindsUnbalanced, FindsWhole, FindsWorth, IsBalanced, WeighsPlan, share_of, weight_at, worth_or_zero};
ghost use Rattle.tn_cert.specs.Replays.{HasSmallSurplus, Replays, in_trades};
ghost use Rattle.tn_firm.specs.Raw.{raw_firm_of};
ghost use Rattle.tn_market.specs.Equilibrium.{surplus_of};
ghost use Rattle.tn_market.specs.Widths.{most_own, most_worth};
ghost use Rattle.tn_said.specs.ClaimLimits.{IsOverWithin, IsPartWithin};
ghost use Rattle.tn_model.specs.Limits.{most_claimed_over, most_firms, most_number, most_parts, most_planned_trades};
ghost use Rattle.tn_model.specs.Network.{IsNetwork, own, part};
ghost use Rattle.tn_said.specs.Claim.{on_firms};
ghost use Rattle.tn_said.specs.declared.claim.FirmClaim.{FirmClaim};
ghost use Rattle.tn_said.specs.declared.part.Part.{Part};

use crate::exchange::positions_in;
use crate::replayed::Replayed;
use std::alloc::Global;
use tn_base::{Bundle, OutOfMemory, TradeSet};
use tn_firm::RawFirm;
use tn_model::{Ends, bundle_of};
use tn_said::{Part, Parts, Reason};

/// The weight of a part of firm `f`, 0 for a part of another one.
fn weight_for(part: Part, f: u32) -> i128
    requires weighed { IsOverWithin part.weight }
    ensures weight { result ≡ (if part.firm == f then part.weight else pos 0) }
    ensures least { pos 0 ≤ℤ result }
    ensures most { result ≤ℤ pos most_claimed_over }
{
    if part.firm == f { part.weight } else { 0 }
}

/// The weights of the parts of firm `f`.
fn share_of(plan: &Parts, f: u32) -> i128
    requires few { length plan.now ≤ most_parts }
    requires weighed { All (λ part. IsOverWithin part.weight) plan.now }
    ensures share { result ≡ share_of plan.now f }
    ensures least { pos 0 ≤ℤ result }
    ensures most { result ≤ℤ pos (most_parts * most_claimed_over) }
{
    let mut share = 0;
    for k in 0..plan.len() {
        share += weight_for(plan.at(k), f);
    }
    share
}

/// The first firm whose weights sum to more than the denominator.
fn first_above(count: u32, plan: &Parts, over: i128) -> Option<u32>
    requires few { length plan.now ≤ most_parts }
    requires weighed { All (λ part. IsOverWithin part.weight) plan.now }
    ensures { FindsShares plan.now over count result }
{
    for f in 0..count {
        if share_of(plan, f) > over {
            return Some(f);
        }
    }
    None
}

/// What a part adds to the worth of firm `f`: its weight times the worth of its bundle, and nothing for a part of
/// another firm. None where its bundle is impossible.
fn part_worth(firm: &RawFirm, part: Part, f: u32) -> Option<i128>
    requires weighed { IsOverWithin part.weight }
    requires own { part.firm ≡ f → part.bundle < 2 ^ (raw_firm_of firm.now).count }
    ensures worth { result ≡ (if part.firm == f
        then option_map (λ worth. part.weight *ℤ worth) ((raw_firm_of firm.now).worth part.bundle) else Some (pos 0)) }
    ensures small { IfSome result (λ worth. IsAtMost worth most_weighed_worth) }
{
    if part.firm != f {
        return Some(0);
    }
    match firm.worth(part.bundle) {
        Some(worth) => Some(part.weight * worth),
        None => None,
    }
}

/// What the parts of firm `f` are worth, None where the bundle of one of them is impossible.
fn parts_worth(firm: &RawFirm, plan: &Parts, f: u32) -> Option<i128>
    requires few { length plan.now ≤ most_parts }
    requires weighed { All (λ part. IsOverWithin part.weight) plan.now }
    requires own { (k : ℕ) (part : Part) → slice_get plan.now k ≡ Some part → part.firm ≡ f
        → part.bundle < 2 ^ (raw_firm_of firm.now).count }
    ensures worth { FindsWorth plan.now f (raw_firm_of firm.now) result }
    ensures small { IfSome result (λ worth. IsAtMost worth (most_parts * most_weighed_worth)) }
{
    let mut total = 0;
    for k in 0..plan.len() {
        match part_worth(firm, plan.at(k), f) {
            Some(worth) => total += worth,
            None => return None,
        }
    }
    Some(total)
}

/// The worth of the empty bundle, which every firm may have.
fn empty_worth(firm: &RawFirm) -> i128
    ensures worth { (raw_firm_of firm.now).worth 0 ≡ Some result }
    ensures small { IsAtMost result most_worth }
{
    match firm.worth(Bundle::empty()) {
        Some(worth) => worth,
        None => unreachable!(),
    }
}

/// What the weights of firm `f`'s parts leave of the denominator.
fn rest_of(plan: &Parts, f: u32, over: i128) -> i128
    requires few { length plan.now ≤ most_parts }
    requires weighed { All (λ part. IsOverWithin part.weight) plan.now }
    requires over { IsOverWithin over }
    ensures rest { result ≡ over -ℤ share_of plan.now f }
    ensures small { IsAtMost result (most_parts * most_claimed_over) }
{
    over - share_of(plan, f)
}

/// A number of the size of weights times one of the size of worths.
fn times(weight: i128, worth: i128) -> i128
    requires weight { IsAtMost weight (most_parts * most_claimed_over) }
    requires worth { IsAtMost worth most_number }
    ensures { result ≡ weight *ℤ worth }
{
    weight * worth
}

/// What the empty bundle of firm `f` is worth for the rest of the denominator.
fn rest_worth(firm: &RawFirm, plan: &Parts, f: u32, over: i128) -> i128
    requires few { length plan.now ≤ most_parts }
    requires weighed { All (λ part. IsOverWithin part.weight) plan.now }
    requires over { IsOverWithin over }
    ensures worth { result ≡ (over -ℤ share_of plan.now f) *ℤ worth_or_zero (raw_firm_of firm.now) 0 }
    ensures small { IsAtMost result (most_parts * most_weighed_worth) }
{
    times(rest_of(plan, f, over), empty_worth(firm))
}

/// What firm `f` has of the plan's worth, None where the bundle of one of its parts is impossible.
fn planned_worth(firm: &RawFirm, plan: &Parts, f: u32, over: i128) -> Option<i128>
    requires few { length plan.now ≤ most_parts }
    requires weighed { All (λ part. IsOverWithin part.weight) plan.now }
    requires own { (k : ℕ) (part : Part) → slice_get plan.now k ≡ Some part → part.firm ≡ f
        → part.bundle < 2 ^ (raw_firm_of firm.now).count }
    requires over { IsOverWithin over }
    ensures worth { FindsPlanned plan.now over f (raw_firm_of firm.now) result }
    ensures small { IfSome result (λ worth. IsAtMost worth most_planned_worth) }
{
    match parts_worth(firm, plan, f) {
        Some(worth) => Some(worth + rest_worth(firm, plan, f, over)),
        None => None,
    }
}

/// What the plan is worth, or the first firm with an impossible bundle.
fn worth_of_plan(firms: &[RawFirm], plan: &Parts, over: i128) -> Result<i128, u32>
    requires few_firms { length firms.now ≤ most_firms }
    requires few { length plan.now ≤ most_parts }
    requires within { All (IsPartWithin (map raw_firm_of firms.now)) plan.now }
    requires over { IsOverWithin over }
    ensures { WeighsPlan (map raw_firm_of firms.now) plan.now over result }
{
    let mut total = 0;
    for (f, firm) in firms.iter().enumerate() {
        match planned_worth(firm, plan, f as u32, over) {
            Some(worth) => total += worth,
            None => return Err(f as u32),
        }
    }
    Ok(total)
}

/// Whether position `k` is in a bundle.
fn has_position(bundle: Bundle, k: u32) -> bool
    ensures { result ≡ has bundle k }
{
    if k < 64 { bundle.has(k) } else { false }
}

/// What a part adds to the weight of the trade at position `k` of firm `f`.
fn weight_there(part: Part, f: u32, k: u32) -> i128
    requires weighed { IsOverWithin part.weight }
    ensures weight { result ≡ (if part.firm == f then (if has part.bundle k then part.weight else pos 0) else pos 0) }
    ensures least { pos 0 ≤ℤ result }
    ensures most { result ≤ℤ pos most_claimed_over }
{
    if part.firm == f && has_position(part.bundle, k) {
        part.weight
    } else {
        0
    }
}

/// The weight of the trade at position `k` of firm `f`.
fn weight_at(plan: &Parts, f: u32, k: u32) -> i128
    requires few { length plan.now ≤ most_parts }
    requires weighed { All (λ part. IsOverWithin part.weight) plan.now }
    ensures { result ≡ weight_at plan.now f k }
{
    let mut weight = 0;
    for i in 0..plan.len() {
        weight += weight_there(plan.at(i), f, k);
    }
    weight
}

/// Whether a trade weighs the same at its seller and at its buyer.
fn is_balanced(plan: &Parts, trade: &Ends) -> bool
    requires few { length plan.now ≤ most_parts }
    requires weighed { All (λ part. IsOverWithin part.weight) plan.now }
    ensures { IsTrue result ↔ IsBalanced plan.now trade.now }
{
    weight_at(plan, trade.seller, trade.at_seller) == weight_at(plan, trade.buyer, trade.at_buyer)
}

/// The first trade that doesn't weigh the same at its seller and at its buyer.
fn first_unbalanced(ends: &[Ends], plan: &Parts) -> Option<u32>
    requires few_trades { length ends.now ≤ most_planned_trades }
    requires few { length plan.now ≤ most_parts }
    requires weighed { All (λ part. IsOverWithin part.weight) plan.now }
    ensures { FindsUnbalanced ends.now plan.now result }
{
    for (t, trade) in ends.iter().enumerate() {
        if !is_balanced(plan, trade) {
            return Some(t as u32);
        }
    }
    None
}

/// The surplus of a set of trades, None where a firm's bundle is impossible.
fn surplus_at(firms: &[RawFirm], ends: &[Ends], on: &TradeSet<1>) -> Option<i128>
    requires few_firms { length firms.now ≤ most_firms }
    requires few_trades { length ends.now ≤ most_planned_trades }
    requires network { IsNetwork (map raw_firm_of firms.now) ends.now }
    ensures surplus { result ≡ surplus_of (map raw_firm_of firms.now) ends.now on.now }
    ensures small { IfSome result (λ surplus. IsAtMost surplus most_number) }
{
    let mut surplus = 0;
    for (f, firm) in firms.iter().enumerate() {
        let bundle = bundle_of(ends, on, f as u32, firm.trades());
        match firm.worth(bundle) {
            Some(worth) => surplus += worth,
            None => return None,
        }
    }
    Some(surplus)
}

/// Whether a number is at least another one.
fn is_at_least(a: i128, b: i128) -> bool
    ensures { IsTrue result ↔ (b ≤ℤ a) }
{
    a >= b
}

/// Whether the denominator times a surplus is at least a plan's worth.
fn is_as_great(over: i128, surplus: i128, worth: i128) -> bool
    requires over { IsOverWithin over }
    requires small { IsAtMost surplus most_number }
    ensures { IsTrue result ↔ (worth ≤ℤ (over *ℤ surplus)) }
{
    is_at_least(times(over, surplus), worth)
}

/// A set of trades that is worth as much as a plan, or more, with its surplus.
fn first_whole(firms: &[RawFirm], ends: &[Ends], over: i128, worth: i128) -> Option<(Bundle, i128)>
    requires few_firms { length firms.now ≤ most_firms }
    requires few_trades { length ends.now ≤ most_planned_trades }
    requires network { IsNetwork (map raw_firm_of firms.now) ends.now }
    requires over { IsOverWithin over }
    ensures whole { FindsWhole (map raw_firm_of firms.now) ends.now over worth result }
    ensures small { IfSome result (λ found. IsAtMost found.1 most_number) }
{
    for bits in 0..1u64 << ends.len() {
        if let Some(surplus) = surplus_at(firms, ends, &TradeSet::from_bits(bits)) {
            if is_as_great(over, surplus, worth) {
                return Some((Bundle::from_bits(bits), surplus));
            }
        }
    }
    None
}

/// Decides a claim that a plan in parts is worth more than every set of trades. It fails only where memory runs out.
pub(crate) fn replay_plan(
    alloc: Global,
    firms: &[RawFirm],
    ends: &[Ends],
    plan: &Parts,
    over: i128,
) -> Result<Replayed, OutOfMemory>
    requires few_firms { length firms.now ≤ most_firms }
    requires network { IsNetwork (map raw_firm_of firms.now) ends.now }
    requires few_trades { length ends.now ≤ most_planned_trades }
    requires few { length plan.now ≤ most_parts }
    requires within { All (IsPartWithin (map raw_firm_of firms.now)) plan.now }
    requires over { IsOverWithin over }
    ensures replays { IfOk result (λ replayed. Replays (map raw_firm_of firms.now) ends.now
        (on_firms (FirmClaim.NoPrices plan.now over)) (in_trades ends.now replayed)) }
    ensures small { IfOk result HasSmallSurplus }
{
    if let Some(firm) = first_above(firms.len() as u32, plan, over) {
        return Ok(Replayed::Invalid(Reason::Shares { firm }));
    }
    let worth = match worth_of_plan(firms, plan, over) {
        Ok(worth) => worth,
        Err(firm) => return Ok(Replayed::Invalid(Reason::Impossible { firm })),
    };
    if let Some(trade) = first_unbalanced(ends, plan) {
        return Ok(Replayed::Invalid(Reason::Balance { trade }));
    }
    match first_whole(firms, ends, over, worth) {
        None => Ok(Replayed::Valid),
        Some(found) => {
            let on = positions_in(alloc, found.0, ends.len() as u32)?;
            let surplus = found.1;
            Ok(Replayed::Invalid(Reason::Whole { on, surplus }))
        }
    }
}
