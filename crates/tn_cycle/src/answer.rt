//! What searches for cycles and for labels answer.

/// What `Finder::through` and `Finder::least_through` answer.
#[derive(Clone, Copy, PartialEq, Eq)]
pub enum Path {
    /// No cycle through the node counts: none has a negative cost, or there is none.
    None,
    /// A least cycle.
    Cycle {
        /// The sum of its arcs' costs.
        cost: i128,
        /// How many arcs it has, and as many nodes.
        length: u32,
    },
}

/// What `Finder::labels` answers.
#[derive(Clone, Copy, PartialEq, Eq)]
pub enum Labels {
    /// No cycle is negative, and the labels may be read.
    Feasible,
    /// A negative cycle.
    Negative {
        /// The sum of its arcs' costs.
        cost: i128,
        /// How many arcs it has, and as many nodes.
        length: u32,
    },
}

impl Path {
    ghost use Rattle.std.specs.Prelude.{◌≡◌};
    ghost use Rattle.tn_cycle.specs.Answers.{arc_count, cost_of};

    /// How many arcs it has, 0 where there is none.
    pub(crate) fn arcs(&self) -> u32
        ensures { result ≡ arc_count self.now }
    {
        match *self {
            Path::None => 0,
            Path::Cycle { length, .. } => length,
        }
    }

    /// What it costs, 0 where there is none.
    pub(crate) fn cost(&self) -> i128
        ensures { result ≡ cost_of self.now }
    {
        match *self {
            Path::None => 0,
            Path::Cycle { cost, .. } => cost,
        }
    }
}
