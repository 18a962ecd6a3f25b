//! Counters of steps, which take no bytes at run time.

ghost use Rattle.std.specs.Prelude.{◌≡◌, ◌+◌};

use std::marker::Model;
use std::mem;
use std::snapshot::Snapshot;

/// The mark of the counters that the shipped firms take.
#[derive(Clone, Copy)]
pub struct Asked;

/// How many steps there were, as clauses see it.
#[derive(Drop)]
enum Count {
    Zero,
    Next(Snapshot<Count>),
}

/// Counts steps for the mark `L`. Contracts see the count; beside the mark it has no bytes at run time. Code that has
/// no value of the mark can make no counter.
#[derive(Drop)]
pub struct Steps<L> {
    mark: L,
    count: Snapshot<Count>,
}

impl<L> Model for Steps<L> {
    ghost use Rattle.std.specs.Prelude.{ℕ};
    ghost use Rattle.tn_base.specs.Ticks.{ticks};

    ghost Value = { ℕ };

    ghost view = { λ steps. ticks steps.count.value };
}

impl<L> Steps<L> {
    /// A counter at 0 that keeps the mark.
    pub fn new(mark: L) -> Steps<L>
        ensures { result ≡ 0 }
    {
        Steps {
            mark,
            count: Snapshot::of(&Count::Zero),
        }
    }

    /// Counts one step.
    pub fn tick(&mut self)
        ensures { self.new ≡ self.old + 1 }
    {
        let before = mem::replace(&mut self.count, Snapshot::of(&Count::Zero));
        self.count = Snapshot::of(&Count::Next(before));
    }
}
