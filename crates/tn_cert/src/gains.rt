//! What a firm gains by another bundle.

ghost use Rattle.std.specs.Prelude.{◌≡◌, ◌-ℤ◌, IfSome, option_map};
ghost use Rattle.tn_base.specs.Arcs.{IsAtMost};
ghost use Rattle.tn_cert.specs.Outcomes.{DecidesGain};
ghost use Rattle.tn_market.specs.Widths.{most_utility};

use crate::replayed::Replayed;
use tn_said::Reason;

/// What a utility is above another one, none where the other bundle is impossible.
pub(crate) fn gain_over(value: i128, other: Option<i128>) -> Option<i128>
    requires value { IsAtMost value most_utility }
    requires other { IfSome other (λ z. IsAtMost z most_utility) }
    ensures { result ≡ option_map (λ z. value -ℤ z) other }
{
    match other {
        Some(other) => Some(value - other),
        None => None,
    }
}

/// A claimed gain against the true one.
pub(crate) fn judge_gain(firm: u32, gain: Option<i128>, claimed: Option<i128>) -> Replayed
    ensures { DecidesGain firm gain claimed result }
{
    match (gain, claimed) {
        (None, None) => Replayed::Valid,
        (Some(gain), Some(claimed)) if 0 < gain && gain == claimed => Replayed::Valid,
        _ => Replayed::Invalid(Reason::Gain { firm, gain }),
    }
}
