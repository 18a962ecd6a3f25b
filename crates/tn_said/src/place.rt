//! Places in a document.

/// The name of a member of a document.
#[derive(Clone, Copy)]
pub enum Word {
    Version,
    Firms,
    Trades,
    Arrangement,
    Outcome,
    Claim,
    Note,
    Edits,
    Name,
    Seller,
    Buyer,
    Kind,
    Rows,
    Amounts,
    Sets,
    From,
    Values,
    Costs,
    Gains,
    Keep,
    Pairs,
    On,
    Prices,
    Over,
    Contracts,
    Answer,
    Surplus,
    Firm,
    Bundle,
    Gain,
    X,
    Y,
    At,
    Nodes,
    Cost,
    Keeps,
    Plan,
    Units,
    Bought,
    Sold,
}

impl Word {
    ghost use Rattle.std.specs.Prelude.{◌≡◌};
    ghost use Rattle.tn_said.specs.Words.{word_text};

    /// The name, as documents and answers have it.
    pub fn text(self) -> &'static str
        ensures { result.now ≡ word_text self }
    {
        match self {
            Word::Version => "version",
            Word::Firms => "firms",
            Word::Trades => "trades",
            Word::Arrangement => "arrangement",
            Word::Outcome => "outcome",
            Word::Claim => "claim",
            Word::Note => "note",
            Word::Edits => "edits",
            Word::Name => "name",
            Word::Seller => "seller",
            Word::Buyer => "buyer",
            Word::Kind => "kind",
            Word::Rows => "rows",
            Word::Amounts => "amounts",
            Word::Sets => "sets",
            Word::From => "from",
            Word::Values => "values",
            Word::Costs => "costs",
            Word::Gains => "gains",
            Word::Keep => "keep",
            Word::Pairs => "pairs",
            Word::On => "on",
            Word::Prices => "prices",
            Word::Over => "over",
            Word::Contracts => "contracts",
            Word::Answer => "answer",
            Word::Surplus => "surplus",
            Word::Firm => "firm",
            Word::Bundle => "bundle",
            Word::Gain => "gain",
            Word::X => "x",
            Word::Y => "y",
            Word::At => "at",
            Word::Nodes => "nodes",
            Word::Cost => "cost",
            Word::Keeps => "keeps",
            Word::Plan => "plan",
            Word::Units => "units",
            Word::Bought => "bought",
            Word::Sold => "sold",
        }
    }
}

/// A step on the way from the top of a document to a value in it.
#[derive(Clone, Copy)]
pub enum PlaceStep {
    /// To the member of an object with this name.
    Key(Word),
    /// To an item of a list, counted from 0.
    Index(u32),
    /// To what belongs to the trade with this number.
    Trade(u32),
}
