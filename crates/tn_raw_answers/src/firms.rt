//! The answer of `firms`.

ghost use Rattle.std.specs.Prelude.{◌≡◌, ◌*◌, ◌<◌, ◌≤◌, ◌+ℤ◌, ◌-ℤ◌, ℕ, pos, All, IfOk, IfSome, cond, length, map, option_and_then, option_map};
ghost use Rattle.tn_answer.specs.Kept.{IsWithinClaims, IsWithinHolding};
ghost use Rattle.tn_base.specs.Arcs.{IsAtMost};
ghost use Rattle.tn_firm.specs.Raw.{raw_firm_of};
ghost use Rattle.tn_raw_answers.specs.Firms.{is_content, TellsFirm, TellsHoldings};
ghost use Rattle.tn_raw_answers.specs.Limits.{most_told_utility};
ghost use Rattle.tn_market.specs.Widths.{most_own, most_worth};
ghost use Rattle.tn_model.specs.Limits.{most_firms, most_number, most_price, most_trades};
ghost use Rattle.tn_model.specs.Network.{own, part, IsNetwork};
ghost use Rattle.tn_model.specs.Prices.{price_at};
ghost use Rattle.tn_price.specs.Standings.{AreOwnPrices};

use crate::stand::{Stand, stand_of};
use std::alloc::Global;
use tn_base::{Bundle, OutOfMemory, TradeSet};
use tn_firm::RawFirm;
use tn_market::MOST_OWN;
use tn_model::{Arrangement, Ends, Prices, Trades, bundle_of, own, trades_of};
use tn_said::{Holding, Holdings, Said};

/// The prices of the `n` trades of firm `f`, by position.
fn own_prices(ends: &[Ends], prices: &Prices, f: u32, n: u32) -> [i128; MOST_OWN]
    requires few_trades { length ends.now ≤ most_trades }
    requires few { n ≤ most_own }
    requires placed { (k : ℕ) → k < n → own ends.now f k < length ends.now }
    requires priced { length prices.now ≡ length ends.now }
    requires small { All (λ p. IsAtMost p most_number) prices.now }
    ensures { AreOwnPrices ends.now (price_at prices.now) f n result }
{
    let mut own_prices = [0; MOST_OWN];
    for k in 0..n {
        own_prices[k as usize] = prices.at(own(ends, f, k) as usize);
    }
    own_prices
}

/// What a firm's utility gains by a best bundle.
fn gain_of(stand: &Stand) -> Option<i128>
    requires utility { IfSome stand.now.utility (λ value. IsAtMost value most_told_utility) }
    requires best { IsAtMost stand.now.best_utility most_told_utility }
    ensures { result ≡ option_map (λ value. stand.now.best_utility -ℤ value) stand.now.utility }
{
    match stand.utility {
        Some(utility) => Some(stand.best_utility - utility),
        None => None,
    }
}

/// What is said of a firm that stands so.
fn told(has: Trades, best: Trades, stand: &Stand, gain: Option<i128>) -> Holding
    ensures has { result.has ≡ has }
    ensures worth { result.worth ≡ stand.now.worth }
    ensures utility { result.utility ≡ stand.now.utility }
    ensures best { result.best ≡ best }
    ensures best_utility { result.best_utility ≡ stand.now.best_utility }
    ensures gain { result.gain ≡ gain }
{
    Holding {
        has,
        worth: stand.worth,
        utility: stand.utility,
        best,
        best_utility: stand.best_utility,
        gain,
    }
}

/// What firm `f` has in an arrangement, and a best bundle of it.
fn holding_of<const W: usize>(
    alloc: Global,
    firm: &RawFirm,
    ends: &[Ends],
    at: &Arrangement<W>,
    f: u32,
) -> Result<Holding, OutOfMemory>
    requires few_trades { length ends.now ≤ most_trades }
    requires wide { length ends.now ≤ 64 * W }
    requires placed { (k : ℕ) → k < (raw_firm_of firm.now).count → own ends.now f k < length ends.now }
    requires priced { length at.now.prices ≡ length ends.now }
    requires small { All (λ p. IsAtMost p most_price) at.now.prices }
    ensures told { IfOk result
        (TellsFirm ends.now (pos 1) at.now.on (price_at at.now.prices) f (raw_firm_of firm.now)) }
    ensures within { IfOk result IsWithinHolding }
    ensures worth { IfOk result (λ holding. IfSome holding.worth (λ z. IsAtMost z most_worth)) }
{
    let n = firm.trades();
    let prices = own_prices(ends, &at.prices, f, n);
    let own = bundle_of(ends, &at.on, f, n);
    let stand = stand_of(firm, own, &prices[..n as usize]);
    let gain = gain_of(&stand);
    let held = trades_of(alloc, ends, f, n, own)?;
    let wanted = trades_of(alloc, ends, f, n, stand.best)?;
    let has = Trades::from_vec(held);
    let best = Trades::from_vec(wanted);
    Ok(told(has, best, &stand, gain))
}

/// 1 for a firm that is content, 0 for any other.
fn count_content(holding: &Holding) -> u32
    ensures { result ≡ cond (is_content holding.now) 1 0 }
{
    match holding.gain {
        Some(0) => 1,
        _ => 0,
    }
}

/// A sum of worths with one more, none where one of them is none.
fn sum(total: Option<i128>, worth: Option<i128>) -> Option<i128>
    requires total { IfSome total (λ z. IsAtMost z most_number) }
    requires worth { IfSome worth (λ z. IsAtMost z most_worth) }
    ensures { result ≡ option_and_then (λ a. option_map (λ b. a +ℤ b) worth) total }
{
    match (total, worth) {
        (Some(total), Some(worth)) => Some(total + worth),
        (None, _) | (_, None) => None,
    }
}

/// What each firm has in an arrangement, at scale 1, and what it would rather have, whether the firms meet exchange or
/// not; where all are content, the arrangement is an equilibrium. There are at most 1,024 firms, and at most 1,024
/// trades and `64 * W`, which fit together, with one price each of at most 10^14 in size.
pub fn answer_firms<const W: usize>(
    alloc: Global,
    firms: &[RawFirm],
    ends: &[Ends],
    at: &Arrangement<W>,
) -> Result<Said, OutOfMemory>
    requires few_firms { length firms.now ≤ most_firms }
    requires few_trades { length ends.now ≤ most_trades }
    requires wide { length ends.now ≤ 64 * W }
    requires network { IsNetwork (map raw_firm_of firms.now) ends.now }
    requires priced { length at.now.prices ≡ length ends.now }
    requires small { All (λ p. IsAtMost p most_price) at.now.prices }
    ensures answer { IfOk result (TellsHoldings (map raw_firm_of firms.now) ends.now at.now.on
        (price_at at.now.prices)) }
    ensures within { IfOk result IsWithinClaims }
{
    let mut holdings = Vec::new(alloc);
    let mut content = 0;
    let mut surplus = Some(0);
    for (f, firm) in firms.iter().enumerate() {
        let holding = holding_of(alloc, firm, ends, at, f as u32)?;
        content += count_content(&holding);
        surplus = sum(surplus, holding.worth);
        holdings.push(holding)?;
    }
    Ok(Said::Firms {
        content,
        firms: Holdings::from_vec(holdings),
        surplus,
    })
}
