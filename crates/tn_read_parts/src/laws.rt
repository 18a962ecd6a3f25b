//! Laws of the parts that are read: each is what its entries say.

ghost use Rattle.tn_read_parts.specs.Laws.{ArrangementsHaveTheirEntries, EditsHaveTheirEntries, OutcomesHaveTheirEntries};

/// An arrangement that is read has exactly the trades on that the document names, and exactly the prices that the
/// entries say.
pub fn arrangements_have_their_entries()
    ensures { ArrangementsHaveTheirEntries }
{}

/// An outcome that is read has the denominator that the document says, and exactly the contracts that the entries say:
/// each is the contract on the trade of a name at the number beside it.
pub fn outcomes_have_their_entries()
    ensures { OutcomesHaveTheirEntries }
{}

/// Edits that are read are as many as the document has entries, and each is what the entry with its index says: to
/// admit or to bar the trade of a name, or all trades where `*` stands for the name, or that the firm of a name leaves
/// or joins.
pub fn edits_have_their_entries()
    ensures { EditsHaveTheirEntries }
{}
