//! Sets of trades by number.

ghost use Rattle.std.specs.Prelude.{◌≡◌, ◌*◌, ◌^◌, ◌<◌, ◌≤◌, nat_eq};
ghost use Rattle.std.specs.Cmp.{partial_equiv_from_equiv};
ghost use Rattle.std.proofs.lemmas.Cmp.{nat_eq_equiv};
ghost use Rattle.tn_base.specs.Sets.{has, toggle, union, meet, minus, size};
ghost use Rattle.tn_base.specs.Widths.{most_limbs};

use std::marker::Model;

/// A set of trade numbers below `64 * W`. Contracts see the number whose binary digits are its members.
#[derive(Clone, Copy)]
pub struct TradeSet<const W: usize> {
    limbs: [u64; W],
}

impl<const W: usize> Model for TradeSet<W> {
    ghost use Rattle.std.specs.Prelude.{ℕ, ◌≤◌};
    ghost use Rattle.tn_base.specs.Limbs.{AreLimbs, joined, limbs_of};
    ghost use Rattle.tn_base.specs.LimbLemmas.{limbs_of-joined};
    ghost use Rattle.tn_base.specs.Widths.{most_limbs};

    ghost Value = { ℕ };

    ghost view = { λ set. joined set.limbs };

    ghost invariant = { λ set. (W ≤ most_limbs) × AreLimbs W set.limbs };

    ghost inverse = { λ x. record { limbs = limbs_of W x } };

    ghost inverse_ok = { λ set fine i. record { limbs = limbs_of-joined W set.limbs fine.1.counted fine.1.words i } };
}

// By hand, since a derived comparison would be known as one of lists of words, and not as one of sets.
impl<const W: usize> PartialEq for TradeSet<W> {
    ghost eq = { nat_eq };

    ghost laws = { partial_equiv_from_equiv nat_eq_equiv };

    fn eq(&self, other: &TradeSet<W>) -> bool {
        self.limbs == other.limbs
    }
}

impl<const W: usize> Eq for TradeSet<W> {
    ghost laws = { nat_eq_equiv };
}

impl TradeSet<1> {
    /// The set of trades below 64 with this number.
    #[tactic(auto, unfolding(crate::specs::Limbs::joined))]
    pub fn from_bits(bits: u64) -> TradeSet<1>
        ensures { result ≡ bits }
    {
        TradeSet { limbs: [bits] }
    }
}

impl<const W: usize> TradeSet<W> {
    /// The set of no trade.
    pub fn empty() -> TradeSet<W>
        requires width { W ≤ most_limbs }
        ensures { result ≡ 0 }
    {
        TradeSet { limbs: [0; W] }
    }

    /// Whether trade `t` is a member. `t` is below `64 * W`.
    pub fn has(&self, t: u32) -> bool
        requires inside { t < 64 * W }
        ensures { result ≡ has self.now t }
    {
        (self.limbs[(t / 64) as usize] >> (t % 64)) & 1 == 1
    }

    /// Moves trade `t` in or out. `t` is below `64 * W`.
    pub fn toggle(&mut self, t: u32)
        requires inside { t < 64 * W }
        ensures toggled { self.new ≡ toggle self.old t }
        ensures within { self.new < 2 ^ (64 * W) }
    {
        self.limbs[(t / 64) as usize] ^= 1 << (t % 64);
    }

    /// How many trades are members.
    pub fn count(&self) -> u32
        ensures members { result ≡ size self.now }
        ensures few { result ≤ 64 * W }
    {
        let mut count = 0;
        for limb in &self.limbs {
            count += limb.count_ones();
        }
        count
    }

    /// The trades in either set.
    pub fn union(&self, other: &TradeSet<W>) -> TradeSet<W>
        ensures members { result ≡ union self.now other.now }
        ensures within { result < 2 ^ (64 * W) }
    {
        let mut limbs = self.limbs;
        for (k, limb) in limbs.iter_mut().enumerate() {
            *limb |= other.limbs[k];
        }
        TradeSet { limbs }
    }

    /// The trades in both sets.
    pub fn meet(&self, other: &TradeSet<W>) -> TradeSet<W>
        ensures members { result ≡ meet self.now other.now }
        ensures within { result < 2 ^ (64 * W) }
    {
        let mut limbs = self.limbs;
        for (k, limb) in limbs.iter_mut().enumerate() {
            *limb &= other.limbs[k];
        }
        TradeSet { limbs }
    }

    /// The trades that aren't in the other set.
    pub fn minus(&self, other: &TradeSet<W>) -> TradeSet<W>
        ensures members { result ≡ minus self.now other.now }
        ensures within { result < 2 ^ (64 * W) }
    {
        let mut limbs = self.limbs;
        for (k, limb) in limbs.iter_mut().enumerate() {
            *limb &= *limb ^ other.limbs[k];
        }
        TradeSet { limbs }
    }
}
