//! The fault of a table that doesn't meet exchange.

ghost use Rattle.std.specs.Prelude.{◌≡◌, ◌≤◌, length, option_map, IfOk};
ghost use Rattle.tn_model.specs.Limits.{most_trades};
ghost use Rattle.tn_model.specs.Network.{own};
ghost use Rattle.tn_read_firms.specs.Firms.{exchange_fault};

use std::alloc::Global;
use tn_base::{Bundle, OutOfMemory};
use tn_market::{Ends, Trades};
use tn_model::{own, trades_of};
use tn_said::PlaceStep::{Index, Key};
use tn_said::{Fault, FaultKind, Place, Shown, Word};

/// The fault of firm `f`, which has so many own trades, that a triple fails.
pub(crate) fn failure(
    alloc: Global,
    ends: &[Ends],
    f: u32,
    count: u32,
    x: Bundle,
    y: Bundle,
    at: Option<u32>,
) -> Result<Fault, OutOfMemory>
    requires few { length ends.now ≤ most_trades }
    requires count { count ≤ 64 }
    ensures { IfOk result (λ fault. fault ≡ exchange_fault ends.now f count (record { x = x; y = y; at = at })) }
{
    let place = Vec::from_slice(alloc, &[Key(Word::Firms), Index(f)])?;
    let x = trades_of(alloc, ends, f, count, x)?;
    let y = trades_of(alloc, ends, f, count, y)?;
    let shown = Shown {
        x: Trades::from_vec(x),
        y: Trades::from_vec(y),
        at: own_option(ends, f, at),
    };
    Ok(Fault {
        kind: FaultKind::ExchangeFails,
        place: Place::from_vec(place),
        shown: Some(shown),
    })
}

/// The trade at a position of firm `f`, where there is one.
pub fn own_option(ends: &[Ends], f: u32, at: Option<u32>) -> Option<u32>
    requires { length ends.now ≤ most_trades }
    ensures { result ≡ option_map (own ends.now f) at }
{
    match at {
        Some(k) => Some(own(ends, f, k)),
        None => None,
    }
}
