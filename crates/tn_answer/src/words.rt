//! The names of kinds of faults.

ghost use Rattle.std.specs.Prelude.{◌≡◌};
ghost use Rattle.tn_answer.specs.Words.{kind_name};

use tn_said::FaultKind;

/// The name of a kind of fault, as an answer has it.
pub(crate) fn kind_name(kind: FaultKind) -> &'static str
    ensures { result.now ≡ kind_name kind }
{
    match kind {
        FaultKind::NotJson => "NotJson",
        FaultKind::TooLong => "TooLong",
        FaultKind::Shape => "Shape",
        FaultKind::BadName => "BadName",
        FaultKind::SameName => "SameName",
        FaultKind::UnknownFirm => "UnknownFirm",
        FaultKind::SelfTrade => "SelfTrade",
        FaultKind::UnknownTrade => "UnknownTrade",
        FaultKind::Limit => "Limit",
        FaultKind::AmountRange => "AmountRange",
        FaultKind::NotOwnTrade => "NotOwnTrade",
        FaultKind::SameBundle => "SameBundle",
        FaultKind::NoEmpty => "NoEmpty",
        FaultKind::NotLaminar => "NotLaminar",
        FaultKind::NotConcave => "NotConcave",
        FaultKind::ExchangeFails => "ExchangeFails",
        FaultKind::SameTrade => "SameTrade",
        FaultKind::PriceMissing => "PriceMissing",
        FaultKind::BadOver => "BadOver",
        FaultKind::SamePair => "SamePair",
    }
}
