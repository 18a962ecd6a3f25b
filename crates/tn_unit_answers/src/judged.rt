//! What counts and prices are to the firms of a document whose trades have units.

ghost use Rattle.std.specs.Prelude.{◌≡◌, ◌≤◌, length, All, IfOk};
ghost use Rattle.tn_base.specs.Arcs.{IsAtMost};
ghost use Rattle.tn_counts.specs.Widths.{most_unit_firms, most_unit_price};
ghost use Rattle.tn_read_unit_parts.specs.Arranged.{AreCountsOf};
ghost use Rattle.tn_unit_answers.specs.Judged.{IsJudged, IsVerdict};

use std::alloc::Global;
use tn_base::OutOfMemory;
use tn_read_units::{UnitDocument, market_of};
use tn_tree::{BestCounts, FirmCount, hold_counts, surplus_of};

/// What is found of each firm, by firm number, with best counts of all, and the surplus of the counts.
#[derive(Drop)]
pub(crate) struct Judged {
    pub(crate) firms: Vec<FirmCount>,
    pub(crate) best: BestCounts,
    pub(crate) surplus: Option<i128>,
}

/// What there is to say of firms one by one: that each gains nothing, or the first that does or whose counts are impossible.
pub(crate) enum Verdict {
    Content,
    Impossible { firm: u32 },
    Better { firm: u32, gain: i128 },
}

/// Prices as the market takes them.
fn short_prices(alloc: Global, prices: &[i128]) -> Result<Vec<i64>, OutOfMemory>
    requires { All (λ price. IsAtMost price most_unit_price) prices.now }
    ensures { IfOk result (λ short. short.items ≡ prices.now) }
{
    let mut short = Vec::new(alloc);
    for price in prices {
        short.push(*price as i64)?;
    }
    Ok(short)
}

/// What counts and prices are to the firms of a document.
pub(crate) fn judge(
    alloc: Global,
    document: &UnitDocument,
    counts: &[u32],
    prices: &[i128],
) -> Result<Judged, OutOfMemory>
    requires counts { AreCountsOf document.now.head.trades counts.now }
    requires priced { length prices.now ≡ length document.now.head.trades }
    requires small { All (λ price. IsAtMost price most_unit_price) prices.now }
    ensures { IfOk result (λ judged. IsJudged document.now counts.now prices.now judged.firms.items judged.best.sold.items
        judged.best.bought.items judged.surplus) }
{
    let _trades = document.trades();
    let market = market_of(alloc, document)?;
    let prices = short_prices(alloc, prices)?;
    let held = hold_counts(alloc, &market, counts, &prices)?;
    let surplus = surplus_of(alloc, &market, counts)?;
    Ok(Judged {
        firms: held.firms,
        best: held.best,
        surplus,
    })
}

/// The verdict on what is found of firms.
pub(crate) fn verdict_of(firms: &[FirmCount]) -> Verdict
    requires few { length firms.now ≤ most_unit_firms }
    ensures { IsVerdict firms.now result }
{
    for f in 0..firms.len() {
        match firms[f].gain {
            Some(0) => {}
            Some(gain) => {
                return Verdict::Better {
                    firm: f as u32,
                    gain,
                };
            }
            None => return Verdict::Impossible { firm: f as u32 },
        }
    }
    Verdict::Content
}
