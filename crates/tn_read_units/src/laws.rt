//! Laws of documents whose trades have units. Each is the contract of a function with an empty body: calling it proves
//! nothing more, and costs nothing.

ghost use Rattle.tn_read_units.specs.Laws.{MarketsSayTheirDocuments, UnitDocumentsAreNetworks};
ghost use Rattle.tn_read_units.specs.Stops.{UnitDocumentsAreNamed, UnitFaultsAreSayable};

/// Every document that is read has a firm for each name, and trades between two different ones of them, of 1 to 2^20
/// units each and no more in all. Each firm gives at most one amount for each of its own trades; its sets are of own
/// trades, each with a concave function on net counts around 0, and of two that share a trade one is within the other.
pub fn unit_documents_are_networks()
    ensures { UnitDocumentsAreNetworks }
{}

/// Every document that is read has different names that keep the rule for names.
pub fn unit_documents_are_named()
    ensures { UnitDocumentsAreNamed }
{}

/// A fault has numbers that fit 64 bits and shows no triple; the names beside it are different and keep the rule for names.
pub fn unit_faults_are_sayable()
    ensures { UnitFaultsAreSayable }
{}

/// Where the firms of a market have the worths that a document says, equilibria of the one are those of the other, at any
/// scale, and counts have the same surplus.
pub fn markets_say_their_documents()
    ensures { MarketsSayTheirDocuments }
{}
