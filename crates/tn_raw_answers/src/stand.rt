//! How a firm stands with what it has.

ghost use Rattle.std.specs.Prelude.{◌≡◌, ◌⊎◌, Some, ◌^◌, ◌<◌, ◌≤◌, pos, All, length};
ghost use Rattle.tn_base.specs.Arcs.{IsAtMost};
ghost use Rattle.tn_base.specs.Firm.{IsBest, utility};
ghost use Rattle.tn_exchange.specs.Rows.{firm_of_table};
ghost use Rattle.tn_firm.specs.Raw.{raw_firm_of};
ghost use Rattle.tn_raw_answers.specs.Stands.{IsStandAtPrices};
ghost use Rattle.tn_market.specs.Valued.{IsWorthAtMost};
ghost use Rattle.tn_market.specs.Widths.{most_asked_price, most_own, most_worth};
ghost use Rattle.tn_model.specs.Prices.{price_at};

use crate::found::Found;
use crate::table::{best_of_table, table_utility};
use tn_base::{Asked, Bundle, Steps};
use tn_exchange::RawTable;
use tn_firm::RawFirm;
use tn_market::{Oracle, is_best_by_step, utility_of, worth_of};
use tn_price::greatest;

/// How a firm stands with its own bundle at the prices of its positions.
#[derive(Clone, Copy)]
pub struct Stand {
    /// The worth of its own bundle, none where it is impossible.
    pub worth: Option<i128>,
    /// The utility of its own bundle, none where it is impossible.
    pub utility: Option<i128>,
    /// A best bundle, its own where that is best.
    pub best: Bundle,
    /// The utility of a best bundle.
    pub best_utility: i128,
}

/// How a firm stands with this worth and utility of its own bundle, beside a best one.
fn stand_beside(own: Bundle, worth: Option<i128>, utility: Option<i128>, found: Found) -> Stand
    ensures worth { result.worth ≡ worth }
    ensures utility { result.utility ≡ utility }
    ensures value { result.best_utility ≡ found.value }
    ensures kept { utility ≡ Some found.value → result.best ≡ own }
    ensures best { (result.best ≡ found.bundle) ⊎ ((result.best ≡ own) × (utility ≡ Some found.value)) }
{
    let is_best = match utility {
        Some(value) => value == found.value,
        None => false,
    };
    Stand {
        worth,
        utility,
        best: if is_best { own } else { found.bundle },
        best_utility: found.value,
    }
}

/// How a table stands.
fn stand_of_table(table: &RawTable, own: Bundle, prices: &[i128]) -> Stand
    requires own { own < 2 ^ length table.now.sides }
    requires priced { length prices.now ≡ length table.now.sides }
    requires small { All (λ p. IsAtMost p most_asked_price) prices.now }
    ensures { IsStandAtPrices (firm_of_table table.now) (price_at prices.now) own result }
{
    let worth = table.worth(own);
    let utility = table_utility(table, own, prices);
    stand_beside(own, worth, utility, best_of_table(table, prices))
}

/// A best bundle of a firm that finds one itself: its own, which has this utility, where that is best. That is tried
/// first, since one step of the search tells it.
fn best_of_oracle<V: Oracle>(
    firm: &V,
    own: Bundle,
    own_utility: Option<i128>,
    prices: &[i128],
) -> Found
    requires priced { length prices.now ≡ (V.firm firm.now).count }
    requires small { All (λ p. IsAtMost p most_asked_price) prices.now }
    requires few_trades { (V.firm firm.now).count ≤ most_own }
    requires small_worths { V.limit firm.now ≤ most_worth }
    requires utility { own_utility ≡ utility (pos 1) (price_at prices.now) (V.firm firm.now) own }
    ensures { IsBest (utility (pos 1) (price_at prices.now) (V.firm firm.now)) result.bundle result.value }
{
    if let Some(value) = own_utility {
        if is_best_by_step(firm, own, 1, prices, &mut Steps::new(Asked)) {
            return Found { bundle: own, value };
        }
    }
    let (bundle, value) = greatest(firm, 1, prices);
    Found { bundle, value }
}

/// How a firm stands that finds a best bundle itself.
fn stand_of_oracle<V: Oracle>(firm: &V, own: Bundle, prices: &[i128]) -> Stand
    requires own { own < 2 ^ (V.firm firm.now).count }
    requires priced { length prices.now ≡ (V.firm firm.now).count }
    requires small { All (λ p. IsAtMost p most_asked_price) prices.now }
    requires few_trades { (V.firm firm.now).count ≤ most_own }
    requires small_worths { V.limit firm.now ≤ most_worth }
    ensures { IsStandAtPrices (V.firm firm.now) (price_at prices.now) own result }
{
    let worth = worth_of(firm, own);
    let utility = utility_of(firm, own, 1, prices);
    stand_beside(
        own,
        worth,
        utility,
        best_of_oracle(firm, own, utility, prices),
    )
}

/// How a firm stands with its own bundle, whether it meets exchange or not: a best bundle is best of all its bundles.
/// It takes no memory. The bundle has own positions alone; prices are at most 10^20 in size, one for each position.
pub fn stand_of(firm: &RawFirm, own: Bundle, prices: &[i128]) -> Stand
    requires own { own < 2 ^ (raw_firm_of firm.now).count }
    requires priced { length prices.now ≡ (raw_firm_of firm.now).count }
    requires small { All (λ p. IsAtMost p most_asked_price) prices.now }
    ensures stand { IsStandAtPrices (raw_firm_of firm.now) (price_at prices.now) own result }
    ensures worths { IsWorthAtMost most_worth (raw_firm_of firm.now) }
{
    match firm {
        RawFirm::Table(table) => {
            let _count = table.trades();
            stand_of_table(table, own, prices)
        }
        RawFirm::Laminar(firm) => stand_of_oracle(firm, own, prices),
        RawFirm::Middle(firm) => stand_of_oracle(firm, own, prices),
        RawFirm::Dealer(firm) => stand_of_oracle(firm, own, prices),
    }
}
