//! Tables of an answer, as rows.

// Tables of an answer, as rows. One loop writes the rows of all of them.
ghost use Rattle.std.specs.Prelude.{◌≡◌, ◌∷◌, All, IfOk, map};
ghost use Rattle.tn_answer.specs.Cells.{IsShortCell, cell_text};
ghost use Rattle.tn_answer.specs.Rows.{rows_text};

use crate::cells::{Cell, begin, finish};
use csv::Writer;
use std::alloc::Global;
use tn_base::OutOfMemory;
use tn_names::Names;

/// A table, which has rows below a head.
pub(crate) trait Table {
    ghost use Rattle.std.specs.Prelude.{◌≡◌, ◌<◌, ℕ, List, ◌++◌, Some, OnOk, length, slice_get};
    ghost use Rattle.csv.specs.Writing.{default_writer, fields_written, has_written, row_text, text_written, writer_setup};
    ghost use Rattle.tn_answer.specs.Rows.{IsBetweenRows};
    ghost use Rattle.tn_names.specs.Names.{NameLists};

    ghost rows: { NameLists → Self → List (List (List ℕ)) };

    ghost IsShort: { Self → Type 0 };

    /// How many rows there are.
    fn count(&self) -> usize
        ensures { (names : NameLists) → length (rows names self.now) ≡ result };

    /// Writes the row at a place, counted from 0. It is below the count.
    fn write_at(
        &self,
        alloc: Global,
        writer: &mut Writer<Vec<u8>>,
        names: &Names,
        k: usize,
    ) -> Result<(), OutOfMemory>
        requires short { IsShort self.now }
        requires there { k < length (rows names.now self.now) }
        ensures { (text : List ℕ) (row : List (List ℕ)) → slice_get (rows names.now self.now) k ≡ Some row
            → IsBetweenRows (text_written (λ v. Some v.items) writer.old) (writer_setup writer.old)
            (fields_written writer.old) (has_written writer.old) text
            → OnOk result (IsBetweenRows (text_written (λ v. Some v.items) writer.new) (writer_setup writer.new)
            (fields_written writer.new) (has_written writer.new) (text ++ row_text default_writer row)) };
}

/// The text of a head and of the rows of a table.
pub(crate) fn table_text<T: Table>(
    alloc: Global,
    names: &Names,
    head: &[Cell],
    table: &T,
) -> Result<Vec<u8>, OutOfMemory>
    requires head { All IsShortCell head.now }
    requires table { T.IsShort table.now }
    ensures { IfOk result
        (λ text. text.items ≡ rows_text (map (cell_text names.now) head.now ∷ T.rows names.now table.now)) }
{
    let mut writer = begin(alloc, names, head)?;
    for k in 0..table.count() {
        table.write_at(alloc, &mut writer, names, k)?;
    }
    finish(writer)
}
