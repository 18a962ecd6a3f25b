//! Laws of sets, tables and the exchange property.

ghost use Rattle.tn_base.specs.ExchangeLaw.{ExchangeIsNoFailure};
ghost use Rattle.tn_base.specs.SetLaws.{AreSets, TogglesAreCounted, TogglesAreSummed};
ghost use Rattle.tn_base.specs.TableLaws.{AreTables};

/// The operations on numbers that the contracts of `Bundle` and `TradeSet` cite are those on sets.
pub fn bundles_are_sets()
    ensures { AreSets }
{}

/// The number of members of a set, and a sum over it, follow each number that is moved in or out.
pub fn sets_are_counted_and_summed()
    ensures counted { TogglesAreCounted }
    ensures summed { TogglesAreSummed }
{}

/// A table firm buys the positions whose side says so, and a listed bundle has the number of its first row.
pub fn tables_are_firms()
    ensures { AreTables }
{}

/// A firm whose possible bundles have own positions alone meets exchange exactly where no triple of two bundles and a
/// position, or none, fails.
pub fn exchange_is_what_no_triple_fails()
    ensures { ExchangeIsNoFailure }
{}
