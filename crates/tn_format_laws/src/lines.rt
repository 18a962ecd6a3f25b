//! Laws of lines: an answer is one line, or a line for each row.

ghost use Rattle.tn_format_laws.specs.Lines.{AnswersAreOneLine, RowsAreLines};

/// The text of an answer has one line feed, at its end, whatever the names in it: of every answer but a page as an
/// object, and in each layout in which it has no rows.
pub fn answers_are_one_line()
    ensures { AnswersAreOneLine }
{}

/// The text of an answer with rows is a line for each of them, the head among them, where the names keep their rule.
pub fn rows_are_lines()
    ensures { RowsAreLines }
{}
