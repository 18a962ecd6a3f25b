//! Bundles: sets of a firm's own trades by position.

ghost use Rattle.std.specs.Prelude.{◌≡◌, ℕ, ◌^◌, ◌<◌, ◌≤◌};
ghost use Rattle.tn_base.specs.Sets.{has, toggle, union, meet, minus, size};
ghost use Rattle.tn_base.specs.Firm.{net};

use std::marker::Model;

/// A set of positions 0 to 63. Contracts see the number whose binary digits are its members.
#[derive(Clone, Copy, PartialEq, Eq)]
pub struct Bundle(u64);

impl Model for Bundle {
    ghost Value = { ℕ };

    ghost view = { λ bundle. bundle.0 };

    ghost invariant = { λ bundle. bundle.0 < 2 ^ 64 };

    ghost inverse = { λ x. record { 0 = x } };
}

impl Bundle {
    /// The bundle of no position.
    pub fn empty() -> Bundle
        ensures { result ≡ 0 }
    {
        Bundle(0)
    }

    /// The bundle with this number.
    pub fn from_bits(bits: u64) -> Bundle
        ensures { result ≡ bits }
    {
        Bundle(bits)
    }

    /// The number of the bundle: position k counts 2^k.
    pub fn bits(self) -> u64
        ensures { result ≡ self }
    {
        self.0
    }

    /// Whether position `k` is a member. `k` is below 64.
    #[tactic(auto, unfolding(crate::specs::Sets::has))]
    pub fn has(self, k: u32) -> bool
        requires { k < 64 }
        ensures { result ≡ has self k }
    {
        (self.0 >> k) & 1 == 1
    }

    /// The bundle with position `k` moved in or out. `k` is below 64.
    #[tactic(auto, unfolding(crate::specs::Sets::toggle))]
    pub fn toggle(self, k: u32) -> Bundle
        requires { k < 64 }
        ensures { result ≡ toggle self k }
    {
        Bundle(self.0 ^ (1 << k))
    }

    /// How many positions are members.
    pub fn count(self) -> u32
        ensures members { result ≡ size self }
        ensures few { result ≤ 64 }
    {
        self.0.count_ones()
    }

    /// The positions in either bundle.
    #[tactic(auto, unfolding(crate::specs::Sets::union))]
    pub fn union(self, other: Bundle) -> Bundle
        ensures { result ≡ union self other }
    {
        Bundle(self.0 | other.0)
    }

    /// The positions in both bundles.
    #[tactic(auto, unfolding(crate::specs::Sets::meet))]
    pub fn meet(self, other: Bundle) -> Bundle
        ensures { result ≡ meet self other }
    {
        Bundle(self.0 & other.0)
    }

    /// The positions that aren't in the other bundle.
    #[tactic(auto, unfolding(crate::specs::Sets::minus))]
    pub fn minus(self, other: Bundle) -> Bundle
        ensures { result ≡ minus self other }
    {
        Bundle(self.0 & (self.0 ^ other.0))
    }

    /// The net count: how many positions are within `buys`, less how many are outside.
    pub fn net(self, buys: Bundle) -> i32
        ensures { result ≡ net buys self }
    {
        self.meet(buys).count() as i32 - self.minus(buys).count() as i32
    }
}
