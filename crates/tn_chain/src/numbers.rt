//! The unsigned trades by their numbers among themselves, as the residual market has them.

ghost use Rattle.std.specs.Prelude.{◌≡◌, ℕ, ◌+◌, ◌^◌, ◌≤◌, ◌<◌, false, IfSome, if◌then◌else◌};
ghost use Rattle.tn_base.specs.Sets.{has};
ghost use Rattle.tn_chain.specs.Limits.{most_judged_trades, most_residual_trades};
ghost use Rattle.tn_chain.specs.Numbers.{AreNumbers, AreNumbersUpTo, added_if, is_among, toggled_if, unsigned_number};
ghost use Rattle.tn_residual.specs.Residual.{number_from, unsigned, unsigned_part};

use tn_base::TradeSet;
use tn_market::Contracts;
use tn_residual::contract_price;

/// Moves a trade in or out where that is wanted.
pub fn toggle_if(set: &mut TradeSet<16>, t: u32, wanted: bool)
    requires inside { t < most_judged_trades }
    ensures { set.new ≡ toggled_if wanted set.old t }
{
    if wanted {
        set.toggle(t);
    }
}

/// Moves a number in or out where that is wanted, and where there is one.
fn add_if(set: &mut TradeSet<32>, number: Option<u32>, wanted: bool)
    requires inside { IfSome number (λ n. n < most_residual_trades) }
    ensures { set.new ≡ added_if wanted number set.old }
{
    if let Some(number) = number {
        if wanted {
            set.toggle(number);
        }
    }
}

/// Whether there is a number, and it is in the set.
fn is_among(number: Option<u32>, set: &TradeSet<32>) -> bool
    requires inside { IfSome number (λ n. n < most_residual_trades) }
    ensures { result ≡ is_among number set.now }
{
    match number {
        Some(number) => set.has(number),
        None => false,
    }
}

/// The unsigned ones of the first `count` trades.
pub fn unsigned_trades(contracts: &Contracts, count: u32) -> TradeSet<16>
    requires few { count ≤ most_judged_trades }
    ensures { result ≡ unsigned count contracts.now }
{
    let mut unsigned = TradeSet::empty();
    for t in 0..count {
        toggle_if(&mut unsigned, t, contract_price(contracts, t).is_none());
    }
    unsigned
}

/// One more where that is wanted.
fn one_more_if(number: u32, wanted: bool) -> u32
    requires few { number < 2 ^ 31 }
    ensures { result ≡ number + (if wanted then 1 else 0) }
{
    if wanted { number + 1 } else { number }
}

/// How many of the first `t` trades are unsigned.
fn unsigned_before(contracts: &Contracts, t: u32) -> u32
    requires few { t ≤ most_judged_trades }
    ensures { result ≡ number_from contracts.now 0 t }
{
    let mut number = 0;
    for i in 0..t {
        number = one_more_if(number, contract_price(contracts, i).is_none());
    }
    number
}

/// The number of trade `t` among the unsigned ones, None where it is signed, by how many before it are unsigned.
fn number_after(contracts: &Contracts, t: u32, before: u32) -> Option<u32>
    requires few { t < most_judged_trades }
    requires before { before ≡ number_from contracts.now 0 t }
    ensures number { result ≡ unsigned_number contracts.now t }
    ensures small { IfSome result (λ n. n < most_judged_trades) }
{
    if contract_price(contracts, t).is_none() {
        Some(before)
    } else {
        None
    }
}

/// The number of trade `t` among the unsigned ones, None where it is signed.
pub fn number_of(contracts: &Contracts, t: u32) -> Option<u32>
    requires few { t < most_judged_trades }
    ensures number { result ≡ unsigned_number contracts.now t }
    ensures small { IfSome result (λ n. n < most_judged_trades) }
{
    number_after(contracts, t, unsigned_before(contracts, t))
}

/// The numbers of those of the first `count` trades that are unsigned and in a set.
pub fn numbers_of(contracts: &Contracts, count: u32, set: &TradeSet<16>) -> TradeSet<32>
    requires few { count ≤ most_judged_trades }
    ensures { AreNumbers contracts.now set.now count result }
{
    let mut numbers = TradeSet::empty();
    let mut before = 0;
    for t in 0..count {
        let number = number_after(contracts, t, before);
        add_if(&mut numbers, number, set.has(t));
        before = one_more_if(before, number.is_some());
    }
    numbers
}

/// Adds all numbers from `from` on and below `to`.
pub fn add_numbers(numbers: &mut TradeSet<32>, from: u32, to: u32)
    requires few { to ≤ most_residual_trades }
    requires order { from ≤ to }
    requires none { (s : ℕ) → from ≤ s → has numbers.old s ≡ false }
    ensures { AreNumbersUpTo numbers.old from to numbers.new }
{
    for s in from..to {
        numbers.toggle(s);
    }
}

/// The unsigned ones of the first `count` trades whose numbers are in a set.
pub fn trades_numbered(contracts: &Contracts, count: u32, numbers: &TradeSet<32>) -> TradeSet<16>
    requires few { count ≤ most_judged_trades }
    ensures { result ≡ unsigned_part contracts.now count numbers.now }
{
    let mut trades = TradeSet::empty();
    let mut before = 0;
    for t in 0..count {
        let number = number_after(contracts, t, before);
        toggle_if(&mut trades, t, is_among(number, numbers));
        before = one_more_if(before, number.is_some());
    }
    trades
}
