//! A law of firms to which their trades are independent.

ghost use Rattle.tn_firm_laws.specs.Laws.{ExchangeOfAdditiveFirms};

/// A firm to which its trades are independent of each other meets exchange, whatever it buys and sells.
pub fn exchange_of_additive_firms()
    ensures { ExchangeOfAdditiveFirms }
{}
