//! The plan of a claim.

ghost use Rattle.std.specs.Prelude.{◌≡◌, ◌+◌, ◌<◌, ◌≤◌, ℕ, [], Some, length, OnOk};
ghost use Rattle.serde_json.specs.View.{view, items_view};
ghost use Rattle.tn_model.specs.Limits.{most_own_trades, most_parts};
ghost use Rattle.tn_read_shapes.specs.Reading.{Gives, each};
ghost use Rattle.tn_read_references.specs.Ordered.{sides_of};
ghost use Rattle.tn_read_references.specs.References.{bundle_at};
ghost use Rattle.tn_read_claims.specs.Planned.{claimed_plan, in_part, one_part, part_of, plan_weight_at};

use serde_json::Value;
use std::alloc::Global;
use tn_base::Bundle;
use tn_read_references::{Head, OwnPart, PartAt, firm, own_bundle};
use tn_read_shapes::{ReadError, few, member, require, three, whole};
use tn_said::PlaceStep::{Index, Key};
use tn_said::{FaultKind, Part, Parts, Word};

/// The most parts of a plan.
const MOST_PARTS: u32 = 1024;

/// The claim's plan, its parts in their order, at most 1,024.
#[tactic(auto, unfolding(crate::specs::Planned::claimed_plan))]
pub(crate) fn plan_of(alloc: Global, head: &Head, claim: &Value) -> Result<Parts, ReadError>
    requires few { (f : ℕ) → f < length head.now.names.firms → length (sides_of head.now.ends f) ≤ most_own_trades }
    ensures { Gives (λ plan. plan) result (claimed_plan head.now (view claim.now)) }
{
    let entries = few(
        alloc,
        MOST_PARTS,
        member(claim, Word::Plan),
        &[Key(Word::Claim), Key(Word::Plan)],
    )?;
    let parts = each_part(alloc, head, entries)?;
    Ok(Parts::from_vec(parts))
}

/// The parts of entries, one after the other.
fn each_part(alloc: Global, head: &Head, entries: &[Value]) -> Result<Vec<Part>, ReadError>
    requires few { (f : ℕ) → f < length head.now.names.firms → length (sides_of head.now.ends f) ≤ most_own_trades }
    requires short { length entries.now ≤ most_parts }
    ensures { Gives (λ parts. parts.items) result
        (each (one_part head.now) [] (items_view entries.now)) }
{
    let mut parts = Vec::new(alloc);
    for entry in entries {
        add_part(alloc, head, &mut parts, entry)?;
    }
    Ok(parts)
}

/// Puts one more part to the parts.
#[tactic(auto, unfolding(crate::specs::Planned::one_part))]
fn add_part(
    alloc: Global,
    head: &Head,
    parts: &mut Vec<Part>,
    entry: &Value,
) -> Result<(), ReadError>
    requires few { (f : ℕ) → f < length head.now.names.firms → length (sides_of head.now.ends f) ≤ most_own_trades }
    requires room { length parts.old.items < most_parts }
    ensures gives { Gives (λ _. parts.new.items) result
        (one_part head.now parts.old.items (view entry.now)) }
    ensures count { OnOk result (length parts.new.items ≡ length parts.old.items + 1) }
{
    let part = part_of(alloc, head, parts.len() as u32, entry)?;
    parts.push(part)?;
    Ok(())
}

/// The part with index `k`: a firm, a bundle of that firm, and a weight.
#[tactic(auto, unfolding(crate::specs::Planned::part_of))]
fn part_of(alloc: Global, head: &Head, k: u32, entry: &Value) -> Result<Part, ReadError>
    requires few { (f : ℕ) → f < length head.now.names.firms → length (sides_of head.now.ends f) ≤ most_own_trades }
    ensures { Gives (λ part. part) result (part_of head.now k (view entry.now)) }
{
    let (name, references, number) = three(
        alloc,
        entry,
        &[Key(Word::Claim), Key(Word::Plan), Index(k)],
    )?;
    let place = [Key(Word::Claim), Key(Word::Plan), Index(k), Index(0)];
    let firm = firm(alloc, head.names(), Some(name), &place)?;
    let bundle = bundle_of(alloc, head, firm, k, references)?;
    let weight = weight_of(alloc, head, k, number)?;
    Ok(Part {
        firm,
        bundle,
        weight,
    })
}

/// The bundle of firm `f` that the part with index `k` has.
fn bundle_of(
    alloc: Global,
    head: &Head,
    f: u32,
    k: u32,
    references: &Value,
) -> Result<Bundle, ReadError>
    requires few { length (sides_of head.now.ends f) ≤ most_own_trades }
    ensures { Gives (λ bundle. bundle) result
        (bundle_at head.now f (in_part k 1) (Some (view references.now))) }
{
    let at = PartAt::MemberItem {
        part: Key(Word::Claim),
        member: Key(Word::Plan),
        item: k,
        index: 1,
    };
    own_bundle(alloc, head, OwnPart { firm: f, at }, Some(references))
}

/// The weight of the part with index `k`, from 1 to the largest denominator of a claim.
#[tactic(auto, unfolding(crate::specs::Planned::plan_weight_at))]
fn weight_of(alloc: Global, head: &Head, k: u32, number: &Value) -> Result<i128, ReadError>
    ensures { Gives (λ weight. weight) result
        (plan_weight_at head.now (in_part k 2) (view number.now)) }
{
    let place = [Key(Word::Claim), Key(Word::Plan), Index(k), Index(2)];
    let weight = whole(alloc, Some(number), &place)?;
    let within = 1 <= weight && weight <= head.limits().claimed_over as i64;
    require(alloc, within, FaultKind::AmountRange, &place)?;
    Ok(weight as i128)
}
