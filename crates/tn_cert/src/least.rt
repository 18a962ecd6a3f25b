//! The least of trades that are found one after another.

ghost use Rattle.std.specs.Prelude.{◌≡◌};
ghost use Rattle.tn_cert.specs.Least.{earlier};

/// The lesser of a trade that was found and of one more.
pub(crate) fn earlier(first: Option<u32>, trade: u32) -> u32
    ensures { result ≡ earlier first trade }
{
    match first {
        Some(first) if first < trade => first,
        _ => trade,
    }
}
