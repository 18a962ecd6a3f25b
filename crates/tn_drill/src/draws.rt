//! The numbers that are drawn, and what they are for a trade.

ghost use Rattle.std.specs.Prelude.{◌≡◌, ℕ, ◌+◌, ◌*◌, ◌<◌, ◌≤◌, length};
ghost use Rattle.tn_drill.specs.Draws.{IsWithin, drawn, most_drilled, most_start, next, number_below, state_after};
ghost use Rattle.tn_drill.specs.Drill.{buyer_number, buyer_of, ends_after, middleman_of, number_to, seller_number, seller_of};

use crate::firms::{FIRST_CONSUMER, FIRST_MIDDLEMAN};
use tn_market::{Ends, count_own};

/// A linear congruential generator modulo 2^31, with the multiplier and the increment of the example in the standard of
/// the language C (ISO/IEC 9899).
#[derive(Clone, Copy)]
pub struct Generator {
    state: u32,
    ghost small: { state ≤ most_start },
}

/// A trade as it is drawn: its number, how far its middleman is from the one whose turn it is, and two numbers.
#[derive(Clone, Copy)]
pub struct Drawn {
    pub trade: u32,
    pub step: u32,
    pub amount: u32,
    pub number: u32,
}

impl Generator {
    /// The generator in this state.
    pub fn new(state: u32) -> Generator
        requires { state ≤ most_start }
        ensures { result.state ≡ state }
    {
        Generator { state }
    }

    /// Draws a number below `n`.
    fn below(&mut self, n: u32) -> u32
        requires { 1 ≤ n }
        ensures state { self.new.state ≡ next self.old.state }
        ensures number { result ≡ number_below n self.new.state }
        ensures below { result < n }
    {
        self.state = ((u64::from(self.state) * 1_103_515_245 + 12_345) % 2_147_483_648) as u32;
        self.state / 65_536 % n
    }

    /// Draws a trade.
    pub fn draw(&mut self, trade: u32) -> Drawn
        requires { trade < most_drilled }
        ensures drawn { (start : ℕ) → self.old.state ≡ state_after start (3 * trade) → result ≡ drawn start trade }
        ensures state { (start : ℕ) → self.old.state ≡ state_after start (3 * trade)
            → self.new.state ≡ state_after start (3 * trade + 3) }
    {
        let step = self.below(2);
        let amount = self.below(if trade % 2 == 0 { 50 } else { 100 });
        let number = self.below(10);
        Drawn {
            trade,
            step,
            amount,
            number,
        }
    }
}

impl Drawn {
    /// The middleman of the trade.
    fn middleman(&self) -> u32
        requires { IsWithin self.now }
        ensures { result ≡ middleman_of self.now }
    {
        FIRST_MIDDLEMAN + (self.trade / 2 + self.step) % 8
    }

    /// The firm that sells: a producer or the middleman.
    fn seller(&self) -> u32
        requires { IsWithin self.now }
        ensures { result ≡ seller_of self.now }
    {
        if self.trade % 2 == 0 {
            self.trade / 2 % 4
        } else {
            self.middleman()
        }
    }

    /// The firm that buys: the middleman or a consumer.
    fn buyer(&self) -> u32
        requires { IsWithin self.now }
        ensures { result ≡ buyer_of self.now }
    {
        if self.trade % 2 == 0 {
            self.middleman()
        } else {
            FIRST_CONSUMER + self.trade / 2 % 4
        }
    }

    /// The ends of the trade after other trades.
    pub fn ends_after(&self, before: &[Ends]) -> Ends
        requires within { IsWithin self.now }
        requires few { length before.now ≤ most_drilled }
        ensures { result ≡ ends_after before.now self.now }
    {
        let seller = self.seller();
        let buyer = self.buyer();
        Ends {
            seller,
            buyer,
            at_seller: count_own(before, seller),
            at_buyer: count_own(before, buyer),
        }
    }

    /// What the trade is to its seller: a producer's amount, or a middleman's gain.
    fn seller_number(&self) -> i128
        requires { IsWithin self.now }
        ensures { result ≡ seller_number self.now }
    {
        if self.trade % 2 == 0 {
            -(1 + i128::from(self.amount))
        } else {
            i128::from(self.number)
        }
    }

    /// What the trade is to its buyer: a middleman's cost, or a consumer's amount.
    fn buyer_number(&self) -> i128
        requires { IsWithin self.now }
        ensures { result ≡ buyer_number self.now }
    {
        if self.trade % 2 == 0 {
            i128::from(self.number)
        } else {
            50 + i128::from(self.amount)
        }
    }

    /// What the trade is to firm `f`, if that is its seller or its buyer.
    pub fn number_to(&self, f: u32) -> Option<i128>
        requires { IsWithin self.now }
        ensures { result ≡ number_to f self.now }
    {
        if self.seller() == f {
            Some(self.seller_number())
        } else if self.buyer() == f {
            Some(self.buyer_number())
        } else {
            None
        }
    }
}
