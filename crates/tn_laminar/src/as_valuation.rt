//! A laminar firm as one that may be asked: single worths, and rows of them.

ghost use Rattle.tn_market.specs.Widths.{most_worth};
ghost use Rattle.tn_laminar.specs.Firms.{firm_of};
ghost use Rattle.tn_laminar.specs.LawLemmas.{laminar_laws};

use crate::laminar::Laminar;
use tn_base::{Asked, Bundle, Side, Steps};
use tn_market::{MOST_WORTH, Oracle, Valuation};

impl Valuation for Laminar {
    type Mark = Asked;

    ghost firm = { firm_of };

    ghost limit = { λ _. most_worth };

    fn trades(&self) -> u32 {
        self.trades
    }

    fn side(&self, k: u32) -> Side {
        if self.buys.has(k) {
            Side::Buy
        } else {
            Side::Sell
        }
    }

    fn bound(&self) -> i128 {
        // 60 amounts and 64 numbers of at most 10^9 in size.
        MOST_WORTH
    }

    fn value(&self, x: Bundle, steps: &mut Steps<Asked>) -> Option<i128> {
        steps.tick();
        let numbers = self.numbers(x)?;
        Some(self.amount(x) + numbers)
    }

    fn row(
        &self,
        x: Bundle,
        wanted: Bundle,
        worths: &mut [Option<i128>],
        steps: &mut Steps<Asked>,
    ) {
        let amount = self.amount(x);
        let numbers = self.counted_numbers(x);
        let changes = self.changes(x, wanted);
        for k in 0..self.trades {
            if wanted.has(k) {
                steps.tick();
                worths[k as usize] = self.toggled_worth(
                    x,
                    k,
                    amount,
                    numbers + changes[k as usize],
                );
            }
        }
    }

    ghost lawful = { laminar_laws };
}

impl Oracle for Laminar {}
