//! The limits of each version of documents.

ghost use Rattle.std.specs.Prelude.{◌≡◌, ◌<◌, ◌+◌, IfSome};
ghost use Rattle.tn_model.specs.Limits.{AreLimits, limits_of, limits_of_many, limits_with};

/// The limits of a document's version. A list may have as many items as its limit says, and a number may be as large in
/// size.
#[derive(Clone, Copy)]
pub struct Limits {
    /// The most firms.
    pub firms: u32,
    /// The most trades.
    pub trades: u32,
    /// The most own trades of a table.
    pub own_of_table: u32,
    /// The most own trades of a firm of another kind.
    pub own: u32,
    /// The largest number of a firm.
    pub amount: u64,
    /// The most sets of a laminar firm.
    pub sets: u32,
    /// The farthest net count from 0 that the first number of a set may be for.
    pub from: u64,
    /// The most numbers of a set.
    pub values: u32,
    /// The largest price of an arrangement.
    pub price: u64,
    /// The largest numerator of an outcome.
    pub numerator: u64,
    /// The largest denominator of an outcome.
    pub over: u32,
    /// The most edits.
    pub edits: u32,
    /// The largest number of a claim.
    pub number: u64,
    /// The largest denominator of a claim.
    pub claimed_over: u32,
    /// The most nodes of a claimed cycle.
    pub nodes: u32,
}

impl Limits {
    /// The limits of documents of a version; none where there is no such version.
    #[tactic(auto, unfolding(crate::specs::Limits::limits_of))]
    pub fn of_version(version: u64) -> Option<Limits>
        ensures is { result ≡ limits_of version }
        ensures kept { IfSome result AreLimits }
    {
        match version {
            1 => Some(Limits::with(64)),
            2 => Some(Limits::with(128)),
            3 => Some(Limits::of_many()),
            _ => None,
        }
    }

    /// The limits of a version with at most so many firms and so many trades, fewer than a thousand.
    fn with(most: u32) -> Limits
        requires { most < 1000 }
        ensures { result ≡ limits_with most }
    {
        Limits {
            firms: most,
            trades: most,
            own_of_table: 14,
            own: 32,
            amount: 1_000_000_000,
            sets: 64,
            from: 32,
            values: 65,
            price: 100_000_000_000_000,
            numerator: 100_000_000_000,
            over: 100,
            edits: 256,
            number: 1_000_000_000_000_000_000,
            claimed_over: 100_000,
            nodes: most + 1,
        }
    }

    /// The limits of the version with a thousand trades: more of them, and more own ones, but smaller amounts.
    fn of_many() -> Limits
        ensures { result ≡ limits_of_many }
    {
        Limits {
            firms: 1024,
            trades: 1024,
            own_of_table: 14,
            own: 60,
            amount: 10_000_000,
            sets: 64,
            from: 60,
            values: 121,
            price: 100_000_000_000_000,
            numerator: 100_000_000_000,
            over: 100,
            edits: 2048,
            number: 1_000_000_000_000_000_000,
            claimed_over: 1_000_000,
            nodes: 1025,
        }
    }
}
