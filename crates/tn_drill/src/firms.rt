//! The firms of a drill network.

ghost use Rattle.std.specs.Prelude.{◌≡◌, ℕ, ◌<◌, ◌≤◌, IsSome, length, map, pos, All, IfOk};
ghost use Rattle.std.specs.List.{filter_map, range_with_len};
ghost use Rattle.tn_base.specs.Arcs.{IsAtMost};
ghost use Rattle.tn_firm.specs.Firms.{firm_of};
ghost use Rattle.tn_firm_laws.specs.Nested.{IsConcaveList, listed_from};
ghost use Rattle.tn_drill.specs.Draws.{IsWithin};
ghost use Rattle.tn_drill.specs.Drill.{HasSmallNumbers, by_net_count, firm_in, number_to};
ghost use Rattle.tn_market.specs.Widths.{most_own};
ghost use Rattle.tn_base.specs.Widths.{most_amount};
ghost use Rattle.tn_model.specs.Limits.{most_from, most_values};

use crate::draws::Drawn;
use std::alloc::Global;
use tn_base::{Bundle, OutOfMemory, Side};
use tn_firm::FirmValue;
use tn_laminar::{Laminar, LaminarRefusal, LaminarSet};
use tn_market::{Amounts, Ends, sides_of};
use tn_middle::Middle;

/// The number of the first middleman: producers come before it.
pub(crate) const FIRST_MIDDLEMAN: u32 = 4;

/// The number of the first consumer.
pub(crate) const FIRST_CONSUMER: u32 = 12;

/// How many firms there are.
const FIRMS: u32 = 16;

/// What the trades of firm `f` are to it, by position.
fn numbers_of(alloc: Global, draws: &[Drawn], f: u32) -> Result<Vec<i128>, OutOfMemory>
    requires { All IsWithin draws.now }
    ensures { IfOk result (λ numbers. numbers.items ≡ filter_map (number_to f) draws.now) }
{
    let mut numbers = Vec::new(alloc);
    for draw in draws {
        if let Some(number) = draw.number_to(f) {
            numbers.push(number)?;
        }
    }
    Ok(numbers)
}

/// What is said where a firm is refused for want of memory, which here is the only cause.
fn want_of_memory(refusal: LaminarRefusal) -> OutOfMemory
    requires { refusal ≡ LaminarRefusal.OutOfMemory }
{
    match refusal {
        LaminarRefusal::OutOfMemory => OutOfMemory,
        _ => unreachable!(),
    }
}

/// The firm with these amounts, and one set of all its trades with these numbers from the net count `low` on.
fn laminar(
    alloc: Global,
    low: i32,
    numbers: Vec<i128>,
    sides: Vec<Side>,
    amounts: Vec<i128>,
) -> Result<FirmValue, OutOfMemory>
    requires few { length sides.items ≤ most_own }
    requires as_many { length amounts.items ≡ length sides.items }
    requires small { All (λ a. IsAtMost a most_amount) amounts.items }
    requires low { IsAtMost low most_from }
    requires few_numbers { length numbers.items ≤ most_values }
    requires small_numbers { All (λ a. IsAtMost a most_amount) numbers.items }
    requires empty { IsSome (listed_from low numbers.items (pos 0)) }
    requires concave { IsConcaveList numbers.items }
    ensures { IfOk result (λ firm. firm_of firm ≡ by_net_count low numbers.items sides.items amounts.items) }
{
    let set = LaminarSet {
        members: Bundle::from_bits((1 << sides.len()) - 1),
        low,
        numbers: Amounts::from_vec(numbers),
    };
    match Laminar::new(alloc, sides, amounts, vec![in alloc; set]?) {
        Ok(firm) => Ok(FirmValue::Laminar(firm)),
        Err(refusal) => Err(want_of_memory(refusal)),
    }
}

/// Firm `f` of the trades as they were drawn.
fn firm(alloc: Global, trades: &[Ends], draws: &[Drawn], f: u32) -> Result<FirmValue, OutOfMemory>
    requires within { All IsWithin draws.now }
    requires own { HasSmallNumbers trades.now draws.now f }
    ensures { IfOk result (λ firm. firm_of firm ≡ firm_in trades.now draws.now f) }
{
    let sides = sides_of(alloc, trades, f)?;
    let numbers = numbers_of(alloc, draws, f)?;
    if f < FIRST_MIDDLEMAN {
        laminar(alloc, -3, vec![in alloc; -9, -4, -1, 0]?, sides, numbers)
    } else if f < FIRST_CONSUMER {
        Ok(FirmValue::Middle(Middle::new(sides, numbers, None)))
    } else {
        laminar(alloc, 0, vec![in alloc; 0, -1, -4, -9]?, sides, numbers)
    }
}

/// The firms of the trades as they were drawn.
pub(crate) fn firms(
    alloc: Global,
    trades: &[Ends],
    draws: &[Drawn],
) -> Result<Vec<FirmValue>, OutOfMemory>
    requires within { All IsWithin draws.now }
    requires own { (f : ℕ) → f < 16 → HasSmallNumbers trades.now draws.now f }
    ensures { IfOk result
        (λ firms. map firm_of firms.items ≡ map (firm_in trades.now draws.now) (range_with_len 0 16)) }
{
    let mut firms = Vec::with_capacity(alloc, FIRMS as usize)?;
    for f in 0..FIRMS {
        firms.push(firm(alloc, trades, draws, f)?)?;
    }
    Ok(firms)
}
