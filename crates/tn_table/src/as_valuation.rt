//! A tested table as a firm that may be asked.

ghost use Rattle.tn_market.specs.Widths.{most_worth};
ghost use Rattle.tn_table.specs.Tables.{firm_of};
ghost use Rattle.tn_table.specs.TableLemmas.{table_laws};

use crate::table::Table;
use tn_base::{Asked, Bundle, Side, Steps};
use tn_market::{MOST_WORTH, Oracle, Valuation};

impl Valuation for Table {
    type Mark = Asked;

    ghost firm = { firm_of };

    ghost limit = { λ _. most_worth };

    fn trades(&self) -> u32 {
        self.raw.trades()
    }

    fn side(&self, k: u32) -> Side {
        self.raw.side(k)
    }

    fn bound(&self) -> i128 {
        MOST_WORTH
    }

    fn value(&self, x: Bundle, steps: &mut Steps<Asked>) -> Option<i128> {
        steps.tick();
        self.raw.worth(x)
    }

    ghost lawful = { table_laws };
}

impl Oracle for Table {}
