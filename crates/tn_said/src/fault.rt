//! Kinds of faults.

ghost use Rattle.std.specs.Prelude.{◌≡◌};
ghost use Rattle.tn_said.specs.Faults.{fault_number};

/// What can be wrong with a document, in the order of the numbers.
#[derive(Clone, Copy)]
pub enum FaultKind {
    /// The bytes are no JSON value nested at most 127 deep.
    NotJson,
    /// The document is longer than 4,194,304 bytes.
    TooLong,
    /// A value isn't of the shape that is wanted at its place.
    Shape,
    /// A name doesn't have 1 to 32 characters of those allowed.
    BadName,
    /// An earlier firm or trade has the name.
    SameName,
    /// No firm has the name.
    UnknownFirm,
    /// A trade's seller is its buyer.
    SelfTrade,
    /// No trade has the name.
    UnknownTrade,
    /// There is more of something than is allowed.
    Limit,
    /// A number is out of its range.
    AmountRange,
    /// The trade isn't one of the firm's own, or is on its other side.
    NotOwnTrade,
    /// An earlier row of the table has the bundle.
    SameBundle,
    /// A laminar set lists no number at the net count 0.
    NoEmpty,
    /// A laminar set crosses an earlier one.
    NotLaminar,
    /// The numbers of a laminar set aren't concave.
    NotConcave,
    /// The firm doesn't meet the exchange property.
    ExchangeFails,
    /// The trade is named twice in one list.
    SameTrade,
    /// A trade has no price.
    PriceMissing,
    /// A denominator is out of its range.
    BadOver,
    /// An earlier pair of the dealer is of the same two trades.
    SamePair,
}

impl FaultKind {
    /// The number of the kind, 1 to 20.
    pub fn number(self) -> u8
        ensures { result ≡ fault_number self }
    {
        self as u8 + 1
    }
}
