//! Laws of the answers for documents whose trades have units. Each is the contract of a function with an empty body:
//! calling it proves nothing more, and costs nothing.

ghost use Rattle.tn_unit_run_laws.specs.Laws.{AnswersAreStableUnits, AnswersBarUnitPrices, DocumentsMakeUnitNetworks, DocumentsMeetExchange, RangesAreOfUnits};
ghost use Rattle.tn_unit_run_laws.specs.Runs.{RunsSpeakOfUnits};

/// Every document that is read whose trades have units makes a network of unit trades and unit firms.
pub fn documents_make_unit_networks()
    ensures { DocumentsMakeUnitNetworks }
{}

/// The counts and prices that `solve` and `support` answer, and those that `check` calls an equilibrium, are one of the
/// unit network: the first so many twins of each trade, at one price for twins, are an equilibrium there, no set of
/// unit trades has more surplus, and no contracts, over any denominator, block it; nor do offers by counts.
pub fn answers_are_stable_units()
    ensures { AnswersAreStableUnits }
{}

/// Where `support` answers a cycle, or a firm to which the counts are impossible, no prices of the unit network support
/// a set with these counts, over any denominator, the same for twins or not.
pub fn answers_bar_unit_prices()
    ensures { AnswersBarUnitPrices }
{}

/// The lowest and the highest price that `range` answers of a trade are those of each of its twins over all equilibria
/// of the unit network at scale 1, where twins may have different prices.
pub fn ranges_are_of_units()
    ensures { RangesAreOfUnits }
{}

/// Whatever bytes the program reads: where `solve` answers counts and prices of units, they are an equilibrium of the
/// unit network of the document that the bytes stand for, efficient and stable there; and where `range` answers ranges
/// of trades with units, they are those of each of its unit trades.
pub fn runs_speak_of_units()
    ensures { RunsSpeakOfUnits }
{}

/// The unit firms of a document that is read meet the exchange property, where a market within the limits has the worths
/// that the document says, as the one has that `market_of` makes of it.
pub fn documents_meet_exchange()
    ensures { DocumentsMeetExchange }
{}
