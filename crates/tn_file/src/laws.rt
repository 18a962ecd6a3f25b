//! Laws of reading: what a document is, and what is told of one that is refused.

ghost use Rattle.tn_file.specs.Laws.{DocumentsAreNetworks, FaultsAreSayable, ReadingsAreNeverTooLong, UnitsAreAVersionOfSome};

/// Every document that is read is a network of firms with different names, within the limits of the version that its
/// bytes say. Of each firm only bundles of its own trades are possible and the empty one is, later positions have later
/// trades, and it meets exchange unless it is read raw. Worths are small, and smaller where there are many trades. Where
/// trades have units, the firms are laminar, and what they say is of own trades alone.
pub fn documents_are_networks()
    ensures { DocumentsAreNetworks }
{}

/// The version of documents whose trades have units is one for the commands that answer these. For another command it is
/// the first fault, as a number that is no version.
pub fn units_are_a_version_of_some()
    ensures { UnitsAreAVersionOfSome }
{}

/// A fault speaks only of trades that have a name, its numbers fit 64 bits, and it shows a failing triple exactly where
/// a firm doesn't meet exchange. The names beside it are different and keep the rule for names.
pub fn faults_are_sayable()
    ensures { FaultsAreSayable }
{}

/// No reading of bytes says that they are too long: that is a fault of the input, of which no byte is read then.
pub fn readings_are_never_too_long()
    ensures { ReadingsAreNeverTooLong }
{}
