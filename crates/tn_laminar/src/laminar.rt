//! A laminar firm, and what a bundle is worth to it.

ghost use Rattle.std.specs.Prelude.{map, slice_get, if◌then◌else◌, pos, ◌≡◌, ◌<◌, ◌≤◌, ◌*◌, length, All, IfOk, IfErr, IfSome};
ghost use Rattle.tn_base.specs.Arcs.{IsAtMost};
ghost use Rattle.tn_base.specs.Sets.{has, sum_over};
ghost use Rattle.tn_firm_laws.specs.Nested.{count_sum};
ghost use Rattle.tn_laminar.specs.Faults.{AreSound, IsRefusedFor};
ghost use Rattle.tn_laminar.specs.Masked.{masks_of};
ghost use Rattle.tn_laminar.specs.Sum.{HasNumbersWithin, IsLaminar, IsOwnSet, laminar_firm, set_number, term_of};
ghost use Rattle.tn_market.specs.OwnNumbers.{own_number};
ghost use Rattle.tn_market.specs.Widths.{most_own};
ghost use Rattle.tn_base.specs.Widths.{most_amount};
ghost use Rattle.tn_model.specs.Limits.{most_sets};

use crate::faults::first_fault;
use crate::masks::Masks;
use crate::refusal::LaminarRefusal;
use crate::set::LaminarSet;
use std::alloc::{AllocFailed, Global};
use tn_base::{Bundle, Side, purchases};

/// A firm whose worth is the sum of an amount for each trade of a bundle, and for each of a family of nested sets a
/// concave function of the net count within it (laminar concave functions: Murota, Discrete Convex Analysis, 2003).
#[derive(Drop)]
pub struct Laminar {
    pub(crate) trades: u32,
    pub(crate) buys: Bundle,
    pub(crate) amounts: Vec<i128>,
    pub(crate) sets: Vec<LaminarSet>,
    pub(crate) masks: Vec<Masks>,
    ghost laminar: { IsLaminar trades buys amounts.items sets.items masks.items },
}

impl Laminar {
    ghost use Rattle.tn_laminar.specs.Firms.{firm_of};

    /// The firm with these sides and amounts by position and these sets. It has at most 60 trades and 64 sets, each
    /// with at most 121 numbers from a net count of -60 to 60 on; amounts and numbers are at most 10^9 in size.
    ///
    /// The sets are tested in order, each for a number at 0, for a number below the middle of its neighbours, and for
    /// crossing an earlier set; the first test that fails is the refusal. Without one memory may still run out.
    pub fn new(
        alloc: Global,
        sides: Vec<Side>,
        amounts: Vec<i128>,
        sets: Vec<LaminarSet>,
    ) -> Result<Laminar, LaminarRefusal>
        requires few { length sides.items ≤ most_own }
        requires as_many { length amounts.items ≡ length sides.items }
        requires small { All (λ a. IsAtMost a most_amount) amounts.items }
        requires few_sets { length sets.items ≤ most_sets }
        requires own { All (IsOwnSet (length sides.items)) sets.items }
        requires numbered { All HasNumbersWithin sets.items }
        ensures firm { IfOk result (λ firm. firm_of firm ≡ laminar_firm sides.items amounts.items sets.items) }
        ensures sound { IfOk result (λ firm. AreSound sets.items) }
        ensures refused { IfErr result (IsRefusedFor sets.items) }
    {
        if let Some(fault) = first_fault(&sets) {
            return Err(fault);
        }
        let buys = purchases(&sides);
        let Ok(masks) = masks(alloc, &sets, buys) else {
            return Err(LaminarRefusal::OutOfMemory);
        };
        Ok(Laminar {
            trades: sides.len() as u32,
            buys,
            amounts,
            sets,
            masks,
        })
    }

    /// What position `k` adds to the worth of a bundle.
    fn amount_in(&self, x: Bundle, k: u32) -> i128
        requires { k < self.now.trades }
        ensures term { result ≡ (if has x k then own_number self.now.amounts.items k else pos 0) }
        ensures small { IsAtMost result most_amount }
    {
        if x.has(k) {
            self.amounts[k as usize]
        } else {
            0
        }
    }

    /// The sum of the amounts of a bundle's trades.
    #[tactic(auto, unfolding(tn_base::specs::Sets::sum_over))]
    pub(crate) fn amount(&self, x: Bundle) -> i128
        ensures sum { result ≡ sum_over (own_number self.now.amounts.items) self.now.trades x }
        ensures small { IsAtMost result (most_own * most_amount) }
    {
        let mut total = 0;
        for k in 0..self.trades {
            total += self.amount_in(x, k);
        }
        total
    }

    /// The number of the set at place `k` at the net count of a bundle within it, None where it isn't listed.
    pub(crate) fn number(&self, x: Bundle, k: usize) -> Option<i128>
        requires { k < length self.now.sets.items }
        ensures number { result ≡ set_number self.now.buys x (slice_get self.now.sets.items k) }
        ensures small { IfSome result (λ number. IsAtMost number most_amount) }
    {
        self.sets[k].number_at(self.masks[k].net(x))
    }

    /// The sum of the sets' numbers at the net counts of a bundle within them, None where one isn't listed.
    pub(crate) fn numbers(&self, x: Bundle) -> Option<i128>
        ensures sum { result ≡ count_sum self.now.buys (map term_of self.now.sets.items) x }
        ensures small { IfSome result (λ total. IsAtMost total (most_sets * most_amount)) }
    {
        let mut total = 0;
        for k in 0..self.sets.len() {
            total += self.number(x, k)?;
        }
        Some(total)
    }
}

/// The masks of the sets.
fn masks(alloc: Global, sets: &[LaminarSet], buys: Bundle) -> Result<Vec<Masks>, AllocFailed<Masks>>
    ensures { IfOk result (λ masks. masks.items ≡ map (λ set. masks_of buys set.members) sets.now) }
{
    let mut masks = Vec::new(alloc);
    for set in sets {
        masks.push(Masks::of(set.members, buys))?;
    }
    Ok(masks)
}
