//! What the tests ask of a firm of any kind. A test stops where what it asks for isn't the firm's own, so that each has
//! to prove no more than what it makes.

ghost use Rattle.std.specs.Prelude.{All};
ghost use Rattle.tn_base.specs.Arcs.{IsAtMost};
ghost use Rattle.tn_market.specs.Widths.{most_asked_price};

use std::process::Abort;
use tn_base::{Asked, Bundle, Side, Steps};
use tn_market::{MOST_OWN, MOST_WORTH, Oracle, Valuation};

/// How many own trades a firm has, its side of the one at position `k`, and its bound.
pub(crate) fn shape<F: Valuation>(rt: &impl Abort, firm: &F, k: u32) -> (u32, Side, i128) {
    assert!(rt; k < firm.trades());
    (firm.trades(), firm.side(k), firm.bound())
}

/// What a bundle is worth to a firm.
pub(crate) fn value<F: Valuation<Mark = Asked>>(
    rt: &impl Abort,
    firm: &F,
    bits: u64,
) -> Option<i128> {
    assert!(rt; firm.trades() < 64);
    assert!(rt; bits < 1 << firm.trades());
    firm.value(Bundle::from_bits(bits), &mut Steps::new(Asked))
}

/// What a firm of `N` trades has for a bundle with each wanted trade toggled.
pub(crate) fn row<F: Valuation<Mark = Asked>, const N: usize>(
    rt: &impl Abort,
    firm: &F,
    bits: u64,
    wanted: u64,
) -> [Option<i128>; N] {
    assert!(rt; firm.trades() < 64);
    assert!(rt; firm.trades() as usize == N);
    assert!(rt; bits < 1 << firm.trades());
    assert!(rt; wanted < 1 << firm.trades());
    let mut worths = [None; N];
    let mut steps = Steps::new(Asked);
    firm.row(
        Bundle::from_bits(bits),
        Bundle::from_bits(wanted),
        &mut worths,
        &mut steps,
    );
    worths
}

/// A best bundle within `free` at these prices, with what it comes to.
#[tactic(auto, unfolding(tn_base::specs::Sets::meet, tn_base::specs::Sets::union))]
pub(crate) fn best<F: Oracle>(
    rt: &impl Abort,
    firm: &F,
    free: u64,
    prices: &[i128],
) -> Option<(u64, i128)>
    requires { All (λ p. IsAtMost p most_asked_price) prices.now }
{
    assert!(rt; firm.trades() as usize <= MOST_OWN);
    assert!(rt; firm.trades() as usize == prices.len());
    assert!(rt; free < 1 << firm.trades());
    assert!(rt; firm.bound() <= MOST_WORTH);
    let (bundle, utility) = firm.best(Bundle::empty(), Bundle::from_bits(free), 1, prices)?;
    Some((bundle.bits(), utility))
}

/// The bundle of best utility that the search comes to from one at hand, with what it comes to.
pub(crate) fn best_from<F: Oracle>(
    rt: &impl Abort,
    firm: &F,
    from: u64,
    prices: &[i128],
) -> (u64, i128)
    requires { All (λ p. IsAtMost p most_asked_price) prices.now }
{
    assert!(rt; firm.trades() as usize <= MOST_OWN);
    assert!(rt; firm.trades() as usize == prices.len());
    assert!(rt; firm.bound() <= MOST_WORTH);
    let all = Bundle::from_bits((1 << firm.trades()) - 1);
    let (bundle, utility) = firm.best_from(Bundle::from_bits(from), all, 1, prices);
    (bundle.bits(), utility)
}
