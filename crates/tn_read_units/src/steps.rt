//! Reads the steps of a set.

ghost use Rattle.std.specs.Prelude.{◌≡◌, ◌+◌, ◌<◌, ◌≤◌, ◌++◌, [], ◌∷◌, length, option_map, All, IfOk, OnOk};
ghost use Rattle.serde_json.specs.View.{view, items_view};
ghost use Rattle.tn_said.specs.declared.place.PlaceStep.TheVariants.{Index};
ghost use Rattle.tn_read_shapes.specs.Reading.{Gives, each};
ghost use Rattle.tn_read_units.specs.Limits.{most_steps};
ghost use Rattle.tn_read_units.specs.Steps.{AreSteps, IsStep, one_step, part_place, set_place, step_at, steps_at};

use crate::counts::count;
use serde_json::Value;
use std::alloc::Global;
use tn_links::Step;
use tn_read_shapes::{ReadError, number, optional_list, require, two};
use tn_said::PlaceStep::{Index, Key};
use tn_said::{FaultKind, PlaceStep, Word};

/// The most steps of a list.
const MOST_STEPS: usize = 256;

/// A number of a firm is at most so much in size.
pub(crate) const MOST_NUMBER: u64 = 10_000_000;

/// A set by its firm, and by its number among the sets of the firm.
#[derive(Clone, Copy)]
pub struct SetAt {
    pub firm: u32,
    pub set: u32,
}

impl SetAt {
    /// Where the set is.
    pub(crate) fn place(self) -> [PlaceStep; 4]
        ensures { result ≡ set_place self }
    {
        let (firm, set) = (Index(self.firm), Index(self.set));
        [Key(Word::Firms), firm, Key(Word::Sets), set]
    }

    /// Where a member of the set is.
    pub(crate) fn part(self, word: Word) -> [PlaceStep; 5]
        ensures { result ≡ part_place self word }
    {
        let (firm, set) = (Index(self.firm), Index(self.set));
        [Key(Word::Firms), firm, Key(Word::Sets), set, Key(word)]
    }

    /// Where an item of a member of the set is.
    pub(crate) fn item(self, word: Word, item: u32) -> [PlaceStep; 6]
        ensures { result ≡ part_place self word ++ Index item ∷ [] }
    {
        let (firm, set) = (Index(self.firm), Index(self.set));
        [
            Key(Word::Firms),
            firm,
            Key(Word::Sets),
            set,
            Key(word),
            Index(item),
        ]
    }

    /// Where what a step of a member of the set adds is.
    pub(crate) fn added(self, word: Word, item: u32) -> [PlaceStep; 7]
        ensures { result ≡ part_place self word ++ Index item ∷ Index 1 ∷ [] }
    {
        let (firm, set) = (Index(self.firm), Index(self.set));
        let sets = Key(Word::Sets);
        [
            Key(Word::Firms),
            firm,
            sets,
            set,
            Key(word),
            Index(item),
            Index(1),
        ]
    }
}

/// The steps of a member of a set, none where it isn't there.
#[tactic(auto, unfolding(crate::specs::Steps::steps_at), using(tn_read_shapes::proofs::ShapeLemmas::items_len_is))]
pub(crate) fn steps(
    alloc: Global,
    at: SetAt,
    word: Word,
    value: Option<&Value>,
) -> Result<Vec<Step>, ReadError>
    ensures gives { Gives (λ steps. steps.items) result
        (steps_at at word (option_map (λ v. view v.now) value.entry)) }
    ensures kept { IfOk result (λ steps. AreSteps steps.items) }
{
    let place = at.part(word);
    let entries = optional_list(alloc, value, &place)?;
    let few = entries.len() <= MOST_STEPS;
    require(alloc, few, FaultKind::Limit, &place)?;
    each_step(alloc, at, word, entries)
}

/// The steps of the entries in their order.
fn each_step(
    alloc: Global,
    at: SetAt,
    word: Word,
    entries: &[Value],
) -> Result<Vec<Step>, ReadError>
    requires { length entries.now ≤ most_steps }
    ensures gives { Gives (λ steps. steps.items) result (each (one_step at word) [] (items_view entries.now)) }
    ensures kept { IfOk result (λ steps. AreSteps steps.items) }
{
    let mut steps = Vec::new(alloc);
    for entry in entries {
        add_step(alloc, at, word, &mut steps, entry)?;
    }
    Ok(steps)
}

/// Puts one more step to the steps.
#[tactic(auto, unfolding(crate::specs::Steps::one_step))]
fn add_step(
    alloc: Global,
    at: SetAt,
    word: Word,
    steps: &mut Vec<Step>,
    entry: &Value,
) -> Result<(), ReadError>
    requires few { length steps.old.items < most_steps }
    requires sound { All IsStep steps.old.items }
    ensures gives { Gives (λ _. steps.new.items) result (one_step at word steps.old.items (view entry.now)) }
    ensures count { OnOk result (length steps.new.items ≡ length steps.old.items + 1) }
    ensures sound { OnOk result (All IsStep steps.new.items) }
{
    let next = step(alloc, at.item(word, steps.len() as u32), entry)?;
    steps.push(next)?;
    Ok(())
}

/// The step of an entry, which is at a place.
#[tactic(auto, unfolding(crate::specs::Steps::step_at))]
fn step(alloc: Global, place: [PlaceStep; 6], entry: &Value) -> Result<Step, ReadError>
    ensures gives { Gives (λ step. step) result (step_at place (view entry.now)) }
    ensures sound { IfOk result IsStep }
{
    let (units, each) = two(alloc, entry, &place)?;
    let [firms, firm, sets, set, part, item] = place;
    let place = [firms, firm, sets, set, part, item, Index(0)];
    let units = count(alloc, Some(units), &place)?;
    let place = [firms, firm, sets, set, part, item, Index(1)];
    let each = number(alloc, MOST_NUMBER, Some(each), &place)?;
    Ok(Step {
        units,
        each: each as i64,
    })
}
