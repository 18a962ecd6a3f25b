//! Links between nodes, and what their units add.

ghost use Rattle.std.specs.Prelude.{◌≡◌, ◌≤◌, ◌*◌, pos, ◌*ℤ◌, ◌-ℤ◌};
ghost use Rattle.tn_base.specs.Arcs.{IsAtMost};
ghost use Rattle.tn_links.specs.Links.{AreSlight, rise, room};
ghost use Rattle.tn_links.specs.Lots.{less_cost, lot_cost, more_cost};
ghost use Rattle.tn_links.specs.Widths.{most_each, most_level, most_lot, most_rise, most_units};

/// Units that follow each other, each of which adds as much to the gain.
#[derive(Clone, Copy)]
pub struct Step {
    pub units: u32,
    pub each: i64,
}

/// A link from its tail to its head. Its level says how many units flow over it above the fewest: at level 0 `back` of
/// them flow from the head to the tail, at level `back` none flows, and above that units flow from the tail to the head.
/// The steps begin at level 0, and there are as many levels above it as they have units. A flow of none gains nothing.
#[derive(Drop)]
pub struct Link {
    pub tail: u32,
    pub head: u32,
    pub back: u32,
    pub steps: Vec<Step>,
}

/// How many units the steps have, at most 2^24.
pub fn room(steps: &[Step]) -> u32
    requires { room steps.now ≤ most_units }
    ensures { result ≡ room steps.now }
{
    let mut units = 0;
    for step in steps {
        units += step.units;
    }
    units
}

/// What so many units of a step add.
fn added(each: i64, units: u32) -> i128
    requires { IsAtMost each most_each }
    ensures { result ≡ each *ℤ pos units }
{
    i128::from(each) * i128::from(units)
}

/// What the first units of the steps add.
pub fn rise(steps: &[Step], units: u32) -> i128
    requires { AreSlight steps.now }
    ensures rise { result ≡ rise steps.now units }
    ensures small { IsAtMost result most_rise }
{
    let mut left = units;
    let mut sum = 0;
    for step in steps {
        let part = left.min(step.units);
        sum += added(step.each, part);
        left -= part;
    }
    sum
}

impl Link {
    /// What a lot over it from one of its ends costs: what that takes from its gain. None where there is no room for it.
    pub(crate) fn lot_cost(&self, level: u32, lot: u32, from: u32) -> Option<i128>
        requires few { room self.now.steps.items ≤ most_units }
        requires slight { AreSlight self.now.steps.items }
        requires within { level ≤ most_units }
        requires small { lot ≤ most_lot }
        ensures { result ≡ lot_cost self.now level lot from }
    {
        if self.tail == from {
            self.more_cost(level, lot)
        } else {
            self.less_cost(level, lot)
        }
    }

    /// What a lot more costs, None where there is no room for it.
    fn more_cost(&self, level: u32, lot: u32) -> Option<i128>
        requires few { room self.now.steps.items ≤ most_units }
        requires slight { AreSlight self.now.steps.items }
        requires within { level ≤ most_units }
        requires small { lot ≤ most_lot }
        ensures { result ≡ more_cost self.now level lot }
    {
        if level + lot <= room(&self.steps) {
            Some(lost(rise(&self.steps, level), rise(&self.steps, level + lot)))
        } else {
            None
        }
    }

    /// What a lot less costs, None where there isn't as much.
    fn less_cost(&self, level: u32, lot: u32) -> Option<i128>
        requires slight { AreSlight self.now.steps.items }
        requires within { level ≤ most_units }
        ensures { result ≡ less_cost self.now level lot }
    {
        if lot <= level {
            Some(lost(rise(&self.steps, level), rise(&self.steps, level - lot)))
        } else {
            None
        }
    }
}

/// What one number lacks to another.
pub(crate) fn lost(before: i128, after: i128) -> i128
    requires before { IsAtMost before most_rise }
    requires after { IsAtMost after most_rise }
    ensures { result ≡ before -ℤ after }
{
    before - after
}
