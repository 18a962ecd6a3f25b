//! Lists of a firm whose entries give numbers to own trades.

ghost use Rattle.std.specs.Prelude.{◌≡◌, ◌<◌, ◌≤◌, length, option_map, IfOk};
ghost use Rattle.serde_json.specs.View.{view, items_view};
ghost use Rattle.tn_model.specs.Limits.{most_own_trades};
ghost use Rattle.tn_read_references.specs.Ordered.{sides_of};
ghost use Rattle.tn_read_firms.specs.OwnNumbers.{one_own, own_entry, own_numbers};
ghost use Rattle.tn_read_shapes.specs.Reading.{Gives, each};

use serde_json::Value;
use std::alloc::Global;
use tn_base::{Bundle, Side};
use tn_read_references::{Head, own_position};
use tn_read_shapes::{ReadError, number, optional_list, require, two};
use tn_said::PlaceStep::{Index, Key};
use tn_said::{FaultKind, PlaceStep, Word};

/// A list of a firm, whose entries give numbers to own trades.
#[derive(Clone, Copy)]
pub(crate) struct OwnList {
    pub(crate) firm: u32,
    /// The member of the firm that is the list.
    pub(crate) member: PlaceStep,
    /// The side on which the firm stands in these trades, if it is one.
    pub(crate) side: Option<Side>,
}

/// The numbers by position, with those that a list gives; a list that isn't there gives none.
#[tactic(auto, unfolding(crate::specs::OwnNumbers::own_numbers))]
pub(crate) fn own_numbers(
    alloc: Global,
    head: &Head,
    list: OwnList,
    value: Option<&Value>,
    mut numbers: Vec<i128>,
) -> Result<Vec<i128>, ReadError>
    requires few { length (sides_of head.now.ends list.firm) ≤ most_own_trades }
    requires places { length numbers.items ≡ length (sides_of head.now.ends list.firm) }
    ensures gives { Gives (λ all. all.items) result
        (own_numbers head.now list numbers.items
        (option_map (λ v. view v.now) value.entry)) }
    ensures places { IfOk result (λ all. length all.items ≡ length numbers.items) }
{
    let place = [Key(Word::Firms), Index(list.firm), list.member];
    let entries = optional_list(alloc, value, &place)?;
    read_entries(alloc, head, list, entries, &mut numbers)?;
    Ok(numbers)
}

/// Puts the numbers of the entries to their positions, and gives the positions that have one.
fn read_entries(
    alloc: Global,
    head: &Head,
    list: OwnList,
    entries: &[Value],
    numbers: &mut [i128],
) -> Result<Bundle, ReadError>
    requires few { length (sides_of head.now.ends list.firm) ≤ most_own_trades }
    requires places { length numbers.old ≡ length (sides_of head.now.ends list.firm) }
    ensures gives { Gives (λ named. record { named = named; numbers = numbers.new }) result
        (each (one_own head.now list)
        (record { named = 0; numbers = numbers.old }) (items_view entries.now)) }
    ensures places { length numbers.new ≡ length numbers.old }
{
    let mut named = Bundle::empty();
    for entry in entries {
        add_entry(alloc, head, list, &mut named, numbers, entry)?;
    }
    Ok(named)
}

/// Puts one more number to its position.
#[tactic(auto, unfolding(tn_read_references::specs::Entries::one_entry))]
fn add_entry(
    alloc: Global,
    head: &Head,
    list: OwnList,
    named: &mut Bundle,
    numbers: &mut [i128],
    entry: &Value,
) -> Result<(), ReadError>
    requires few { length (sides_of head.now.ends list.firm) ≤ most_own_trades }
    requires places { length numbers.old ≡ length (sides_of head.now.ends list.firm) }
    ensures gives { Gives (λ _. record { named = named.new; numbers = numbers.new }) result
        (one_own head.now list
        (record { named = named.old; numbers = numbers.old }) (view entry.now)) }
    ensures places { length numbers.new ≡ length numbers.old }
{
    let (k, number) = entry_of(alloc, head, list, *named, entry)?;
    numbers[k as usize] = number;
    *named = named.toggle(k);
    Ok(())
}

/// The position and the number of one more entry.
#[tactic(auto, unfolding(tn_read_references::specs::Entries::entry_of, tn_read_references::specs::References::new_own))]
fn entry_of(
    alloc: Global,
    head: &Head,
    list: OwnList,
    named: Bundle,
    entry: &Value,
) -> Result<(u32, i128), ReadError>
    requires few { length (sides_of head.now.ends list.firm) ≤ most_own_trades }
    ensures gives { Gives (λ p. p) result
        (own_entry head.now list named (view entry.now)) }
    ensures own { IfOk result (λ p. p.0 < length (sides_of head.now.ends list.firm)) }
{
    let (f, k) = (Index(list.firm), Index(named.count()));
    let (reference, value) = two(alloc, entry, &[Key(Word::Firms), f, list.member, k])?;
    let place = [Key(Word::Firms), f, list.member, k, Index(0)];
    let position = own_position(alloc, head, list.firm, list.side, reference, &place)?;
    require(alloc, !named.has(position), FaultKind::SameTrade, &place)?;
    let place = [Key(Word::Firms), f, list.member, k, Index(1)];
    let number = number(alloc, head.limits().amount, Some(value), &place)?;
    Ok((position, number))
}
