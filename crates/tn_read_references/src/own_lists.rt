//! Lists of references to own trades of a firm.

ghost use Rattle.std.specs.Prelude.{◌^◌, ◌<◌, ◌≤◌, ◌++◌, [], ◌∷◌, length, option_map, IfOk, None};
ghost use Rattle.serde_json.specs.View.{view, items_view};
ghost use Rattle.tn_base.specs.Sets.{size};
ghost use Rattle.tn_model.specs.Limits.{most_own_trades};
ghost use Rattle.tn_said.specs.declared.place.PlaceStep.TheVariants.{Index};
ghost use Rattle.tn_read_shapes.specs.Reading.{Gives, each};
ghost use Rattle.tn_read_shapes.specs.Shapes.{list_at};
ghost use Rattle.tn_read_references.specs.Ordered.{sides_of};
ghost use Rattle.tn_read_references.specs.References.{bundle_at, new_own, own_reference, part_place};

use crate::head::Head;
use crate::references::own_position;
use serde_json::Value;
use std::alloc::Global;
use tn_base::Bundle;
use tn_read_shapes::{ReadError, list, require};
use tn_said::PlaceStep::{Index, Key};
use tn_said::{FaultKind, PlaceStep, Word};

/// A list of references to own trades of a firm.
#[derive(Clone, Copy)]
pub struct OwnPart {
    /// The firm's number.
    pub firm: u32,
    /// Where the list is.
    pub at: PartAt,
}

/// Where a list of references to own trades of a firm is.
#[derive(Clone, Copy)]
pub enum PartAt {
    /// A part of an item of a list of the firm.
    Item {
        /// The member of the firm that is the list.
        list: PlaceStep,
        /// The item's index in the list.
        item: u32,
        /// The member or the index of the part in the item.
        part: PlaceStep,
    },
    /// A member of a part of the document beside its network.
    Member {
        /// The part.
        part: PlaceStep,
        /// The member.
        member: PlaceStep,
    },
    /// A part of an item of such a member.
    MemberItem {
        /// The part of the document.
        part: PlaceStep,
        /// The member that is a list.
        member: PlaceStep,
        /// The item's index in the list.
        item: u32,
        /// The index of the references in the item.
        index: u32,
    },
}

/// The bundle of own trades that the references of a list name.
#[tactic(auto, unfolding(crate::specs::References::bundle_at))]
pub fn own_bundle(
    alloc: Global,
    head: &Head,
    part: OwnPart,
    value: Option<&Value>,
) -> Result<Bundle, ReadError>
    requires few { length (sides_of head.now.ends part.firm) ≤ most_own_trades }
    ensures gives { Gives (λ bundle. bundle) result
        (bundle_at head.now part.firm (part_place part.firm part.at)
        (option_map (λ v. view v.now) value.entry)) }
    ensures own { IfOk result (λ bundle. bundle < 2 ^ length (sides_of head.now.ends part.firm)) }
{
    let references = references_at(alloc, part, value)?;
    each_own(alloc, head, part, references)
}

/// The references of a list.
fn references_at<'a>(
    alloc: Global,
    part: OwnPart,
    value: Option<&'a Value>,
) -> Result<&'a [Value], ReadError>
    ensures { Gives (λ s. items_view s.now) result
        (list_at (part_place part.firm part.at) (option_map (λ v. view v.now) value.entry)) }
{
    let firm = Index(part.firm);
    match part.at {
        PartAt::Item {
            list: items,
            item,
            part,
        } => list(
            alloc,
            value,
            &[Key(Word::Firms), firm, items, Index(item), part],
        ),
        PartAt::Member { part, member } => list(alloc, value, &[part, member]),
        PartAt::MemberItem {
            part,
            member,
            item,
            index,
        } => list(alloc, value, &[part, member, Index(item), Index(index)]),
    }
}

/// The bundle that references name, one after the other.
fn each_own(
    alloc: Global,
    head: &Head,
    part: OwnPart,
    references: &[Value],
) -> Result<Bundle, ReadError>
    requires few { length (sides_of head.now.ends part.firm) ≤ most_own_trades }
    ensures gives { Gives (λ bundle. bundle) result
        (each (own_reference head.now part.firm (part_place part.firm part.at)) 0
        (items_view references.now)) }
    ensures own { IfOk result (λ bundle. bundle < 2 ^ length (sides_of head.now.ends part.firm)) }
{
    let mut bundle = Bundle::empty();
    for reference in references {
        bundle = own_reference(alloc, head, part, bundle, reference)?;
    }
    Ok(bundle)
}

/// The bundle with one more own trade, which a reference names.
#[tactic(auto, unfolding(crate::specs::References::own_reference), using(tn_base::proofs::SetLemmas::toggle_within))]
fn own_reference(
    alloc: Global,
    head: &Head,
    part: OwnPart,
    bundle: Bundle,
    value: &Value,
) -> Result<Bundle, ReadError>
    requires few { length (sides_of head.now.ends part.firm) ≤ most_own_trades }
    requires own { bundle < 2 ^ length (sides_of head.now.ends part.firm) }
    ensures gives { Gives (λ b. b) result
        (own_reference head.now part.firm (part_place part.firm part.at) bundle (view value.now)) }
    ensures own { IfOk result (λ b. b < 2 ^ length (sides_of head.now.ends part.firm)) }
{
    let k = next_position(alloc, head, part, bundle, value)?;
    Ok(bundle.toggle(k))
}

/// The position that the next reference of a list names, after those of a bundle.
fn next_position(
    alloc: Global,
    head: &Head,
    part: OwnPart,
    bundle: Bundle,
    value: &Value,
) -> Result<u32, ReadError>
    requires few { length (sides_of head.now.ends part.firm) ≤ most_own_trades }
    ensures gives { Gives (λ k. k) result
        (new_own head.now part.firm None
        (part_place part.firm part.at ++ Index (size bundle) ∷ []) bundle (view value.now)) }
    ensures own { IfOk result (λ k. k < length (sides_of head.now.ends part.firm)) }
{
    let (f, k) = (part.firm, Index(bundle.count()));
    match part.at {
        PartAt::Item { list, item, part } => {
            let place = [Key(Word::Firms), Index(f), list, Index(item), part, k];
            new_own(alloc, head, f, bundle, value, &place)
        }
        PartAt::Member { part, member } => {
            new_own(alloc, head, f, bundle, value, &[part, member, k])
        }
        PartAt::MemberItem {
            part,
            member,
            item,
            index,
        } => {
            let place = [part, member, Index(item), Index(index), k];
            new_own(alloc, head, f, bundle, value, &place)
        }
    }
}

/// The position of the own trade of firm `f` that a reference names, where it isn't in the bundle yet.
#[tactic(auto, unfolding(crate::specs::References::new_own))]
fn new_own(
    alloc: Global,
    head: &Head,
    f: u32,
    bundle: Bundle,
    value: &Value,
    place: &[PlaceStep],
) -> Result<u32, ReadError>
    requires few { length (sides_of head.now.ends f) ≤ most_own_trades }
    ensures gives { Gives (λ k. k) result
        (new_own head.now f None place.now bundle (view value.now)) }
    ensures own { IfOk result (λ k. k < length (sides_of head.now.ends f)) }
{
    let k = own_position(alloc, head, f, None, value, place)?;
    require(alloc, !bundle.has(k), FaultKind::SameTrade, place)?;
    Ok(k)
}
