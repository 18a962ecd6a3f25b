//! A law of tables: their rows make the firm.

ghost use Rattle.tn_exchange.specs.RowsLaw.{RowsMakeTheFirm};

/// A table by bundle number is the firm of the list of its rows.
pub fn rows_make_the_firm()
    ensures { RowsMakeTheFirm }
{}
