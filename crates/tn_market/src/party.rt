//! The firms of a residual market: those of the market, and those outside that take contracts over.

ghost use Rattle.std.specs.Prelude.{◌≡◌, ◌+◌, ◌<◌, ◌≤◌, length, pos, unsigned_abs};
ghost use Rattle.tn_base.specs.Arcs.{IsAtMost};
ghost use Rattle.tn_base.specs.Sets.{has, size};
ghost use Rattle.tn_market.specs.Outside.{outside, outside_sum};
ghost use Rattle.tn_market.specs.Valued.{side_at, HasToggledWorths};
ghost use Rattle.tn_market.specs.Widths.{most_outside_price};

use crate::levied::Levied;
use crate::valuation::Valuation;
use tn_base::{Bundle, Side, Steps};

/// A firm outside the market that takes a contract over: at its price it buys from the contract's seller, at position
/// 0, and sells to its buyer, at position 1.
#[derive(Clone, Copy)]
pub struct Outside {
    /// The price, at most 10^17 in size.
    pub price: i128,
    ghost small: { IsAtMost price most_outside_price },
}

impl Outside {
    /// The firm that takes a contract over at this price. The price is at most 10^17 in size.
    pub fn new(price: i128) -> Outside
        requires { IsAtMost price most_outside_price }
        ensures { result.price ≡ price }
    {
        Outside { price }
    }

    /// The side of a position.
    #[tactic(auto, unfolding(tn_base::specs::Sets::has))]
    fn side(&self, k: u32) -> Side
        requires { k < 2 }
        ensures { result ≡ side_at (outside self.now.price).buys k }
    {
        if k == 0 { Side::Buy } else { Side::Sell }
    }

    /// The size of the price.
    fn bound(&self) -> i128
        ensures { result ≡ pos (unsigned_abs self.now.price) }
    {
        if self.price < 0 {
            -self.price
        } else {
            self.price
        }
    }

    /// The worth of a bundle: the price if it has the purchase, less the price if it has the sale.
    fn value(&self, x: Bundle) -> i128
        ensures { result ≡ outside_sum self.now.price (has x 0) (has x 1) }
    {
        let bought = if x.has(0) { self.price } else { 0 };
        let sold = if x.has(1) { self.price } else { 0 };
        bought - sold
    }

    /// The worth of a bundle, which is always possible.
    fn worth(&self, x: Bundle) -> Option<i128>
        requires { x < 4 }
        ensures { result ≡ (outside self.now.price).worth x }
    {
        Some(self.value(x))
    }

    /// Writes a row of worths.
    fn row<L>(&self, x: Bundle, wanted: Bundle, worths: &mut [Option<i128>], steps: &mut Steps<L>)
        requires own { x < 4 }
        requires own_wanted { wanted < 4 }
        requires room { 2 ≤ length worths.old }
        ensures worths { HasToggledWorths (outside self.now.price).worth x wanted worths.new }
        ensures room { length worths.new ≡ length worths.old }
        ensures asked { steps.new ≡ steps.old + size wanted }
    {
        for k in 0..2 {
            if wanted.has(k) {
                steps.tick();
                worths[k as usize] = self.worth(x.toggle(k));
            }
        }
    }
}

/// A firm of a residual market.
#[derive(Drop)]
pub enum Party<'a, V: Valuation> {
    /// A firm of the market, under a levy.
    Firm(Levied<'a, V>),
    /// A firm outside the market, for one contract.
    Outside(Outside),
}

impl<V: Valuation> Valuation for Party<'_, V> {
    ghost use Rattle.tn_market.specs.Parties.{party_firm, party_limit};
    ghost use Rattle.tn_market.specs.PartyLemmas.{party_laws};

    type Mark = V::Mark;

    ghost firm = { party_firm V.Valuation };

    ghost limit = { party_limit V.Valuation };

    fn trades(&self) -> u32 {
        match self {
            Party::Firm(firm) => firm.trades(),
            Party::Outside(_) => 2,
        }
    }

    fn side(&self, k: u32) -> Side {
        match self {
            Party::Firm(firm) => firm.side(k),
            Party::Outside(outside) => outside.side(k),
        }
    }

    fn bound(&self) -> i128 {
        match self {
            Party::Firm(firm) => firm.bound(),
            Party::Outside(outside) => outside.bound(),
        }
    }

    fn value(&self, x: Bundle, steps: &mut Steps<V::Mark>) -> Option<i128> {
        match self {
            Party::Firm(firm) => firm.value(x, steps),
            Party::Outside(outside) => {
                steps.tick();
                Some(outside.value(x))
            }
        }
    }

    fn row(
        &self,
        x: Bundle,
        wanted: Bundle,
        worths: &mut [Option<i128>],
        steps: &mut Steps<V::Mark>,
    ) {
        match self {
            Party::Firm(firm) => firm.row(x, wanted, worths, steps),
            Party::Outside(outside) => outside.row(x, wanted, worths, steps),
        }
    }

    ghost lawful = { party_laws V.lawful };
}
