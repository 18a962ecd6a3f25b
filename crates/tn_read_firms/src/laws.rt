//! A law of the triple that a fault shows.

ghost use Rattle.tn_read_firms.specs.FirstFailure.{IsTheFirstFailure};

/// The failing triple that a fault shows is the first triple of the table.
pub fn first_failures_are_first()
    ensures { IsTheFirstFailure }
{}
