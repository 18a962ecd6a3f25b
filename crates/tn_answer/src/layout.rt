//! Layouts of an answer.

/// How an answer is written.
#[derive(Clone, Copy)]
pub enum Layout {
    /// As one JSON object.
    Object,
    /// As rows for a spreadsheet, if the answer has rows; else as an object.
    Rows,
    /// As rows that say who sells and who buys too, if the answer has such rows; else as an object.
    WideRows,
}
