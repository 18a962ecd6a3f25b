//! A middleman as a firm that may be asked.

ghost use Rattle.tn_market.specs.Widths.{most_worth};
ghost use Rattle.tn_middle.specs.Firms.{firm_of};
ghost use Rattle.tn_middle.specs.LawLemmas.{middle_laws};

use crate::middle::Middle;
use tn_base::{Asked, Bundle, Side, Steps};
use tn_market::{MOST_WORTH, Oracle, Valuation};

impl Valuation for Middle {
    type Mark = Asked;

    ghost firm = { firm_of };

    ghost limit = { λ _. most_worth };

    fn trades(&self) -> u32 {
        self.trades
    }

    fn side(&self, k: u32) -> Side {
        if self.buys.has(k) {
            Side::Buy
        } else {
            Side::Sell
        }
    }

    fn bound(&self) -> i128 {
        MOST_WORTH
    }

    fn value(&self, x: Bundle, steps: &mut Steps<Asked>) -> Option<i128> {
        steps.tick();
        self.worth(x)
    }

    ghost lawful = { middle_laws };
}

impl Oracle for Middle {}
