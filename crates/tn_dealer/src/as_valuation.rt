//! A dealer as a firm that may be asked: single worths, and rows of them.

ghost use Rattle.tn_market.specs.Widths.{most_worth};
ghost use Rattle.tn_dealer.specs.Firms.{firm_of};
ghost use Rattle.tn_dealer.specs.LawLemmas.{dealer_laws};

use crate::dealer::Dealer;
use tn_base::{Asked, Bundle, Side, Steps};
use tn_market::{MOST_WORTH, Oracle, Valuation};

impl Valuation for Dealer {
    type Mark = Asked;

    ghost firm = { firm_of };

    ghost limit = { λ _. most_worth };

    fn trades(&self) -> u32 {
        self.trades
    }

    fn side(&self, k: u32) -> Side {
        if self.buys.has(k) {
            Side::Buy
        } else {
            Side::Sell
        }
    }

    fn bound(&self) -> i128 {
        MOST_WORTH
    }

    fn value(&self, x: Bundle, steps: &mut Steps<Asked>) -> Option<i128> {
        steps.tick();
        self.worth(x)
    }

    fn row(
        &self,
        x: Bundle,
        wanted: Bundle,
        worths: &mut [Option<i128>],
        steps: &mut Steps<Asked>,
    ) {
        let spare = self.spare(x, wanted);
        for k in 0..self.trades {
            if wanted.has(k) {
                steps.tick();
                worths[k as usize] = self.toggled_worth(x, k, &spare);
            }
        }
    }

    ghost lawful = { dealer_laws };
}

impl Oracle for Dealer {}
