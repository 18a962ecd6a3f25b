//! Fields of rows, from data. One loop makes the fields of a row, as one makes the values of an object.
ghost use Rattle.std.specs.Prelude.{◌≡◌, ◌==◌, ℕ, List, ◌∷◌, ◌++◌, [], All, Some, map, if◌then◌else◌, IfOk, OnOk, IfSome, FitsSigned, string_bytes};
ghost use Rattle.std.specs.Fmt.{decimal, signed_decimal};
ghost use Rattle.std.specs.Int.{w64};
ghost use Rattle.csv.specs.Records.{fields_of};
ghost use Rattle.csv.specs.Writing.{default_writer, fields_written, has_written, row_text, text_written, writer_setup};
ghost use Rattle.tn_answer.specs.Cells.{IsShortCell, cell_text};
ghost use Rattle.tn_answer.specs.Rows.{IsBetweenRows, bound_text, bundle_text, entry_text, flag_text, unit_bundle_text};

use crate::values::name_at;
use csv::{ByteRecord, Writer};
use std::alloc::Global;
use tn_base::OutOfMemory;
use tn_model::Trades;
use tn_names::Names;
use tn_said::{TradeUnits, UnitBundle};

/// A field of a row.
#[derive(Clone, Copy)]
pub(crate) enum Cell<'a> {
    Name(&'a str),
    /// 1 for yes, 0 for no.
    Flag(bool),
    Natural(u32),
    Number(i128),
    /// Empty where it is none.
    Bound(Option<i128>),
    /// The names of trades, with a blank between each two.
    Bundle(&'a Trades),
    /// The same with a colon and how many units behind each name.
    UnitBundle(&'a UnitBundle),
}

fn flag_text(flag: bool) -> &'static str
    ensures { result.now ≡ flag_text flag }
{
    if flag { "1" } else { "0" }
}

fn natural_text(alloc: Global, number: u32) -> Result<String, OutOfMemory>
    ensures { IfOk result (λ text. string_bytes text ≡ decimal number) }
{
    Ok(number.to_string(alloc)?)
}

fn number_text(alloc: Global, number: i128) -> Result<String, OutOfMemory>
    requires { FitsSigned w64 number }
    ensures { IfOk result (λ text. string_bytes text ≡ signed_decimal number) }
{
    Ok((number as i64).to_string(alloc)?)
}

fn bound_text(alloc: Global, bound: Option<i128>) -> Result<String, OutOfMemory>
    requires { IfSome bound (FitsSigned w64) }
    ensures { IfOk result (λ text. string_bytes text ≡ bound_text bound) }
{
    match bound {
        None => Ok(String::new(alloc)),
        Some(number) => number_text(alloc, number),
    }
}

/// What stands before the name at a place: a blank, but before the first name nothing.
fn blank_before(k: usize) -> &'static str
    ensures { result.now ≡ (if k == 0 then [] else 32 ∷ []) }
{
    if k == 0 { "" } else { " " }
}

/// The names of trades, with a blank between each two.
fn bundle_text(alloc: Global, names: &Names, trades: &Trades) -> Result<String, OutOfMemory>
    ensures { IfOk result (λ text. string_bytes text ≡ bundle_text names.now.trades trades.now) }
{
    let mut text = String::new(alloc);
    for k in 0..trades.len() {
        text.push_str(blank_before(k))?;
        text.push_str(name_at(names, trades.at(k) as usize))?;
    }
    Ok(text)
}

/// The name of a trade, a colon, and how many units of it.
fn entry_text(alloc: Global, names: &Names, entry: TradeUnits) -> Result<String, OutOfMemory>
    ensures { IfOk result (λ text. string_bytes text ≡ entry_text names.now.trades entry) }
{
    let mut text = String::from_str(alloc, name_at(names, entry.trade as usize))?;
    text.push_str(":")?;
    text.push_str(&natural_text(alloc, entry.units)?)?;
    Ok(text)
}

/// The trades of a bundle with how many units of each, with a blank between each two.
fn unit_bundle_text(
    alloc: Global,
    names: &Names,
    bundle: &UnitBundle,
) -> Result<String, OutOfMemory>
    ensures { IfOk result (λ text. string_bytes text ≡ unit_bundle_text names.now.trades bundle.now) }
{
    let mut text = String::new(alloc);
    for k in 0..bundle.len() {
        text.push_str(blank_before(k))?;
        text.push_str(&entry_text(alloc, names, bundle.at(k))?)?;
    }
    Ok(text)
}

fn cell_text(alloc: Global, names: &Names, cell: &Cell) -> Result<String, OutOfMemory>
    requires { IsShortCell cell.now }
    ensures { IfOk result (λ text. string_bytes text ≡ cell_text names.now cell.now) }
{
    match cell {
        Cell::Name(text) => Ok(String::from_str(alloc, text)?),
        Cell::Flag(flag) => Ok(String::from_str(alloc, flag_text(*flag))?),
        Cell::Natural(number) => natural_text(alloc, *number),
        Cell::Number(number) => number_text(alloc, *number),
        Cell::Bound(bound) => bound_text(alloc, *bound),
        Cell::Bundle(trades) => bundle_text(alloc, names, trades),
        Cell::UnitBundle(bundle) => unit_bundle_text(alloc, names, bundle),
    }
}

/// The fields of a row.
fn record_of(alloc: Global, names: &Names, cells: &[Cell]) -> Result<ByteRecord, OutOfMemory>
    requires { All IsShortCell cells.now }
    ensures { IfOk result (λ row. fields_of row ≡ map (cell_text names.now) cells.now) }
{
    let mut row = ByteRecord::new(alloc);
    for cell in cells {
        let text = cell_text(alloc, names, cell)?;
        row.push_field(text.as_bytes())?;
    }
    Ok(row)
}

/// Writes one more row.
pub(crate) fn write_row(
    alloc: Global,
    writer: &mut Writer<Vec<u8>>,
    names: &Names,
    cells: &[Cell],
) -> Result<(), OutOfMemory>
    requires { All IsShortCell cells.now }
    ensures { (text : List ℕ)
        → IsBetweenRows (text_written (λ v. Some v.items) writer.old) (writer_setup writer.old)
        (fields_written writer.old) (has_written writer.old) text
        → OnOk result (IsBetweenRows (text_written (λ v. Some v.items) writer.new) (writer_setup writer.new)
        (fields_written writer.new) (has_written writer.new)
        (text ++ row_text default_writer (map (cell_text names.now) cells.now))) }
{
    let row = record_of(alloc, names, cells)?;
    match writer.write_byte_record(&row) {
        Ok(()) => Ok(()),
        Err(_) => Err(OutOfMemory),
    }
}

/// A writer of rows that has written a head.
pub(crate) fn begin(
    alloc: Global,
    names: &Names,
    head: &[Cell],
) -> Result<Writer<Vec<u8>>, OutOfMemory>
    requires { All IsShortCell head.now }
    ensures { IfOk result (λ writer. IsBetweenRows (text_written (λ v. Some v.items) writer) (writer_setup writer)
        (fields_written writer) (has_written writer)
        (row_text default_writer (map (cell_text names.now) head.now))) }
{
    let mut writer = Writer::from_writer(Vec::new(alloc));
    write_row(alloc, &mut writer, names, head)?;
    Ok(writer)
}

/// The text that a writer of rows has written.
pub(crate) fn finish(writer: Writer<Vec<u8>>) -> Result<Vec<u8>, OutOfMemory>
    ensures { (text : List ℕ)
        → IsBetweenRows (text_written (λ v. Some v.items) writer) (writer_setup writer) (fields_written writer)
        (has_written writer) text
        → IfOk result (λ written. written.items ≡ text) }
{
    match writer.into_inner() {
        Ok(text) => Ok(text),
        Err(_) => Err(OutOfMemory),
    }
}
