//! The answers that have rows, as rows.

ghost use Rattle.std.specs.Prelude.{◌≡◌, ℕ, List, ◌∷◌, ◌++◌, All, Some, IfOk, IfSome, OnOk, FitsSigned, slice_get};
ghost use Rattle.std.specs.Int.{w64};
ghost use Rattle.csv.specs.Writing.{default_writer, fields_written, has_written, row_text, text_written, writer_setup};
ghost use Rattle.tn_answer.specs.Cells.{IsShortCell, cell_text, on_text};
ghost use Rattle.tn_answer.specs.Rows.{IsBetweenRows, bounds_row, buyer_text, deal_head, deal_row, firm_head, firm_row, is_listed, is_nothing, price_head, price_row, range_head, rows_text, seller_text, table, unit_firm_row, units_of};
ghost use Rattle.tn_names.specs.Names.{NameLists};
ghost use Rattle.tn_answer.specs.Sayable.{IsShortHolding, IsShortUnitHolding};

use crate::cells::{Cell, write_row};
use crate::holdings::firm_name_at;
use crate::tables::{Table, table_text};
use crate::values::{firm_name, name_at};
use csv::Writer;
use std::alloc::Global;
use tn_base::OutOfMemory;
use tn_model::{Prices, Ranges, TradeEnds, Trades};
use tn_names::Names;
use tn_said::{Counts, Holding, Holdings, UnitHolding, UnitHoldings, UnitRanges};

/// Whether a list has a number.
fn is_listed(on: &Trades, k: usize) -> bool
    ensures { result ≡ is_listed on.now k }
{
    for at in 0..on.len() {
        if on.at(at) as usize == k {
            return true;
        }
    }
    false
}

/// How many units of a trade go, 0 where no count is there.
fn units_at(counts: &Counts, k: usize) -> u32
    ensures { result ≡ units_of counts.now k }
{
    if k < counts.len() { counts.at(k) } else { 0 }
}

/// What the column `on` says of each trade.
#[derive(Clone, Copy)]
pub(crate) enum OnColumn<'a> {
    /// Whether it is one of these.
    Flags(&'a Trades),
    /// How many units of it go.
    Units(&'a Counts),
}

/// The field of the column `on` in the row of a trade.
fn on_cell<'a>(on: OnColumn<'a>, k: usize) -> Cell<'a>
    ensures short { IsShortCell result }
    ensures text { (names : NameLists) → cell_text names result ≡ on_text on.entry k }
{
    match on {
        OnColumn::Flags(trades) => Cell::Flag(is_listed(trades, k)),
        OnColumn::Units(counts) => Cell::Natural(units_at(counts, k)),
    }
}

/// Whether a gain is there and is nothing.
fn is_nothing(gain: Option<i128>) -> bool
    ensures { result ≡ is_nothing gain }
{
    match gain {
        None => false,
        Some(gain) => gain.unsigned_abs() == 0,
    }
}

/// The name of a trade's seller, empty where there is no such trade.
fn seller_at<'a>(names: &'a Names, ends: &TradeEnds, k: usize) -> &'a str
    ensures { result.now ≡ seller_text names.now.firms (slice_get ends.now k) }
{
    if k < ends.len() {
        firm_name(names, ends.at(k).seller)
    } else {
        ""
    }
}

/// The name of a trade's buyer, empty where there is no such trade.
fn buyer_at<'a>(names: &'a Names, ends: &TradeEnds, k: usize) -> &'a str
    ensures { result.now ≡ buyer_text names.now.firms (slice_get ends.now k) }
{
    if k < ends.len() {
        firm_name(names, ends.at(k).buyer)
    } else {
        ""
    }
}

/// Writes the row of a trade with its price.
fn write_price<'a>(
    alloc: Global,
    writer: &mut Writer<Vec<u8>>,
    names: &'a Names,
    on: OnColumn<'a>,
    k: usize,
    price: i128,
) -> Result<(), OutOfMemory>
    requires { FitsSigned w64 price }
    ensures { (text : List ℕ)
        → IsBetweenRows (text_written (λ v. Some v.items) writer.old) (writer_setup writer.old)
        (fields_written writer.old) (has_written writer.old) text
        → OnOk result (IsBetweenRows (text_written (λ v. Some v.items) writer.new) (writer_setup writer.new)
        (fields_written writer.new) (has_written writer.new)
        (text ++ row_text default_writer (price_row names.now (on_text on.entry) k price))) }
{
    let row = [
        Cell::Name(name_at(names, k)),
        on_cell(on, k),
        Cell::Number(price),
    ];
    write_row(alloc, writer, names, &row)
}

/// The trades with their prices, and what the column `on` says of them.
#[derive(Clone, Copy)]
struct PriceRows<'a> {
    on: OnColumn<'a>,
    prices: &'a Prices,
}

impl Table for PriceRows<'_> {
    ghost use Rattle.std.specs.Prelude.{All, FitsSigned};
    ghost use Rattle.std.specs.Int.{w64};
    ghost use Rattle.tn_answer.specs.Cells.{on_text};
    ghost use Rattle.tn_answer.specs.Rows.{each_from, price_row};

    ghost rows = { λ names table. each_from (price_row names (on_text table.on)) 0 table.prices.now };

    ghost IsShort = { λ table. All (FitsSigned w64) table.prices.now };

    fn count(&self) -> usize {
        self.prices.len()
    }

    fn write_at(
        &self,
        alloc: Global,
        writer: &mut Writer<Vec<u8>>,
        names: &Names,
        k: usize,
    ) -> Result<(), OutOfMemory> {
        write_price(alloc, writer, names, self.on, k, self.prices.at(k))
    }
}

/// Each trade with its price, and what the column `on` says of it.
pub(crate) fn price_rows<'a>(
    alloc: Global,
    names: &Names,
    on: OnColumn<'a>,
    prices: &'a Prices,
) -> Result<Vec<u8>, OutOfMemory>
    requires { All (FitsSigned w64) prices.now }
    ensures { IfOk result
        (λ text. text.items ≡ rows_text (table price_head (price_row names.now (on_text on.entry)) prices.now)) }
{
    let head = [Cell::Name("trade"), Cell::Name("on"), Cell::Name("price")];
    table_text(alloc, names, &head, &PriceRows { on, prices })
}

/// Writes the row of a trade with its ends and its price.
fn write_deal<'a>(
    alloc: Global,
    writer: &mut Writer<Vec<u8>>,
    names: &'a Names,
    on: OnColumn<'a>,
    ends: &TradeEnds,
    k: usize,
    price: i128,
) -> Result<(), OutOfMemory>
    requires { FitsSigned w64 price }
    ensures { (text : List ℕ)
        → IsBetweenRows (text_written (λ v. Some v.items) writer.old) (writer_setup writer.old)
        (fields_written writer.old) (has_written writer.old) text
        → OnOk result (IsBetweenRows (text_written (λ v. Some v.items) writer.new) (writer_setup writer.new)
        (fields_written writer.new) (has_written writer.new)
        (text ++ row_text default_writer (deal_row names.now (on_text on.entry) ends.now k price))) }
{
    let row = [
        Cell::Name(name_at(names, k)),
        Cell::Name(seller_at(names, ends, k)),
        Cell::Name(buyer_at(names, ends, k)),
        on_cell(on, k),
        Cell::Number(price),
    ];
    write_row(alloc, writer, names, &row)
}

/// The same with who sells and who buys.
#[derive(Clone, Copy)]
struct DealRows<'a> {
    on: OnColumn<'a>,
    prices: &'a Prices,
    ends: &'a TradeEnds,
}

impl Table for DealRows<'_> {
    ghost use Rattle.std.specs.Prelude.{All, FitsSigned};
    ghost use Rattle.std.specs.Int.{w64};
    ghost use Rattle.tn_answer.specs.Cells.{on_text};
    ghost use Rattle.tn_answer.specs.Rows.{deal_row, each_from};

    ghost rows = { λ names table. each_from (deal_row names (on_text table.on) table.ends.now) 0 table.prices.now };

    ghost IsShort = { λ table. All (FitsSigned w64) table.prices.now };

    fn count(&self) -> usize {
        self.prices.len()
    }

    fn write_at(
        &self,
        alloc: Global,
        writer: &mut Writer<Vec<u8>>,
        names: &Names,
        k: usize,
    ) -> Result<(), OutOfMemory> {
        write_deal(
            alloc,
            writer,
            names,
            self.on,
            self.ends,
            k,
            self.prices.at(k),
        )
    }
}

/// The same with who sells and who buys.
pub(crate) fn deal_rows<'a>(
    alloc: Global,
    names: &Names,
    on: OnColumn<'a>,
    prices: &'a Prices,
    ends: &'a TradeEnds,
) -> Result<Vec<u8>, OutOfMemory>
    requires { All (FitsSigned w64) prices.now }
    ensures { IfOk result (λ text. text.items ≡ rows_text
        (table deal_head (deal_row names.now (on_text on.entry) ends.now) prices.now)) }
{
    let head = [
        Cell::Name("trade"),
        Cell::Name("seller"),
        Cell::Name("buyer"),
        Cell::Name("on"),
        Cell::Name("price"),
    ];
    table_text(alloc, names, &head, &DealRows { on, prices, ends })
}

/// The lowest and the highest price that a trade may have.
#[derive(Clone, Copy)]
struct Bounds {
    /// The lowest price, if there is one.
    low: Option<i128>,
    /// The highest price, if there is one.
    high: Option<i128>,
}

/// Writes the row of a trade with its ends and the prices that it may have.
fn write_bounds<'a>(
    alloc: Global,
    writer: &mut Writer<Vec<u8>>,
    names: &'a Names,
    on: OnColumn<'a>,
    ends: &TradeEnds,
    k: usize,
    bounds: Bounds,
) -> Result<(), OutOfMemory>
    requires high { IfSome bounds.high (FitsSigned w64) }
    requires low { IfSome bounds.low (FitsSigned w64) }
    ensures { (text : List ℕ)
        → IsBetweenRows (text_written (λ v. Some v.items) writer.old) (writer_setup writer.old)
        (fields_written writer.old) (has_written writer.old) text
        → OnOk result (IsBetweenRows (text_written (λ v. Some v.items) writer.new) (writer_setup writer.new)
        (fields_written writer.new) (has_written writer.new) (text ++ row_text default_writer
        (bounds_row names.now (on_text on.entry) ends.now k bounds.low bounds.high))) }
{
    let row = [
        Cell::Name(name_at(names, k)),
        Cell::Name(seller_at(names, ends, k)),
        Cell::Name(buyer_at(names, ends, k)),
        on_cell(on, k),
        Cell::Bound(bounds.low),
        Cell::Bound(bounds.high),
    ];
    write_row(alloc, writer, names, &row)
}

/// The trades with their ends and the prices that they may have.
#[derive(Clone, Copy)]
pub(crate) struct RangeRows<'a> {
    /// The trades that are on.
    pub on: &'a Trades,
    /// What each price may be.
    pub ranges: &'a Ranges,
    /// The ends of each trade.
    pub ends: &'a TradeEnds,
}

impl Table for RangeRows<'_> {
    ghost use Rattle.std.specs.Prelude.{All};
    ghost use Rattle.tn_answer.specs.Rows.{each_from, on_flags, range_row};
    ghost use Rattle.tn_answer.specs.Sayable.{HasShortBounds};

    ghost rows = { λ names table. each_from (range_row names (on_flags table.on.now) table.ends.now) 0
        table.ranges.now };

    ghost IsShort = { λ table. All HasShortBounds table.ranges.now };

    fn count(&self) -> usize {
        self.ranges.len()
    }

    fn write_at(
        &self,
        alloc: Global,
        writer: &mut Writer<Vec<u8>>,
        names: &Names,
        k: usize,
    ) -> Result<(), OutOfMemory> {
        let range = self.ranges.at(k);
        let bounds = Bounds {
            low: range.low,
            high: range.high,
        };
        let on = OnColumn::Flags(self.on);
        write_bounds(alloc, writer, names, on, self.ends, k, bounds)
    }
}

/// The trades with units, with their ends and the prices that they may have.
#[derive(Clone, Copy)]
pub(crate) struct UnitRangeRows<'a> {
    /// How many units of each trade go.
    pub counts: &'a Counts,
    /// What each price may be.
    pub ranges: &'a UnitRanges,
    /// The ends of each trade.
    pub ends: &'a TradeEnds,
}

impl Table for UnitRangeRows<'_> {
    ghost use Rattle.std.specs.Prelude.{All};
    ghost use Rattle.tn_answer.specs.Rows.{each_from, on_units, unit_range_row};
    ghost use Rattle.tn_answer.specs.Sayable.{HasShortUnitBounds};

    ghost rows = { λ names table. each_from (unit_range_row names (on_units table.counts.now) table.ends.now) 0
        table.ranges.now };

    ghost IsShort = { λ table. All HasShortUnitBounds table.ranges.now };

    fn count(&self) -> usize {
        self.ranges.len()
    }

    fn write_at(
        &self,
        alloc: Global,
        writer: &mut Writer<Vec<u8>>,
        names: &Names,
        k: usize,
    ) -> Result<(), OutOfMemory> {
        let range = self.ranges.at(k);
        let bounds = Bounds {
            low: range.low,
            high: range.high,
        };
        let on = OnColumn::Units(self.counts);
        write_bounds(alloc, writer, names, on, self.ends, k, bounds)
    }
}

/// Each trade of a table with the prices that it may have.
pub(crate) fn range_rows<T: Table>(
    alloc: Global,
    names: &Names,
    ranges: &T,
) -> Result<Vec<u8>, OutOfMemory>
    requires { T.IsShort ranges.now }
    ensures { IfOk result (λ text. text.items ≡ rows_text (range_head ∷ T.rows names.now ranges.now)) }
{
    let head = [
        Cell::Name("trade"),
        Cell::Name("seller"),
        Cell::Name("buyer"),
        Cell::Name("on"),
        Cell::Name("low"),
        Cell::Name("high"),
    ];
    table_text(alloc, names, &head, ranges)
}

/// Writes the row of a firm with what it has.
fn write_firm<'a>(
    alloc: Global,
    writer: &mut Writer<Vec<u8>>,
    names: &'a Names,
    k: usize,
    holding: &'a Holding,
) -> Result<(), OutOfMemory>
    requires { IsShortHolding holding.now }
    ensures { (text : List ℕ)
        → IsBetweenRows (text_written (λ v. Some v.items) writer.old) (writer_setup writer.old)
        (fields_written writer.old) (has_written writer.old) text
        → OnOk result (IsBetweenRows (text_written (λ v. Some v.items) writer.new) (writer_setup writer.new)
        (fields_written writer.new) (has_written writer.new)
        (text ++ row_text default_writer (firm_row names.now k holding.now))) }
{
    let row = [
        Cell::Name(firm_name_at(names, k)),
        Cell::Flag(is_nothing(holding.gain)),
        Cell::Bound(holding.worth),
        Cell::Bound(holding.utility),
        Cell::Number(holding.best_utility),
        Cell::Bound(holding.gain),
        Cell::Bundle(&holding.has),
        Cell::Bundle(&holding.best),
    ];
    write_row(alloc, writer, names, &row)
}

impl Table for Holdings {
    ghost use Rattle.std.specs.Prelude.{All};
    ghost use Rattle.tn_answer.specs.Rows.{each_from, firm_row};
    ghost use Rattle.tn_answer.specs.Sayable.{IsShortHolding};

    ghost rows = { λ names firms. each_from (firm_row names) 0 firms };

    ghost IsShort = { All IsShortHolding };

    fn count(&self) -> usize {
        self.len()
    }

    fn write_at(
        &self,
        alloc: Global,
        writer: &mut Writer<Vec<u8>>,
        names: &Names,
        k: usize,
    ) -> Result<(), OutOfMemory> {
        write_firm(alloc, writer, names, k, self.at(k))
    }
}

/// Writes the row of a firm with what it has of trades with units.
fn write_unit_firm<'a>(
    alloc: Global,
    writer: &mut Writer<Vec<u8>>,
    names: &'a Names,
    k: usize,
    holding: &'a UnitHolding,
) -> Result<(), OutOfMemory>
    requires { IsShortUnitHolding holding.now }
    ensures { (text : List ℕ)
        → IsBetweenRows (text_written (λ v. Some v.items) writer.old) (writer_setup writer.old)
        (fields_written writer.old) (has_written writer.old) text
        → OnOk result (IsBetweenRows (text_written (λ v. Some v.items) writer.new) (writer_setup writer.new)
        (fields_written writer.new) (has_written writer.new)
        (text ++ row_text default_writer (unit_firm_row names.now k holding.now))) }
{
    let row = [
        Cell::Name(firm_name_at(names, k)),
        Cell::Flag(is_nothing(holding.gain)),
        Cell::Bound(holding.worth),
        Cell::Bound(holding.utility),
        Cell::Number(holding.best_utility),
        Cell::Bound(holding.gain),
        Cell::UnitBundle(&holding.has),
        Cell::UnitBundle(&holding.best),
    ];
    write_row(alloc, writer, names, &row)
}

impl Table for UnitHoldings {
    ghost use Rattle.std.specs.Prelude.{All};
    ghost use Rattle.tn_answer.specs.Rows.{each_from, unit_firm_row};
    ghost use Rattle.tn_answer.specs.Sayable.{IsShortUnitHolding};

    ghost rows = { λ names firms. each_from (unit_firm_row names) 0 firms };

    ghost IsShort = { All IsShortUnitHolding };

    fn count(&self) -> usize {
        self.len()
    }

    fn write_at(
        &self,
        alloc: Global,
        writer: &mut Writer<Vec<u8>>,
        names: &Names,
        k: usize,
    ) -> Result<(), OutOfMemory> {
        write_unit_firm(alloc, writer, names, k, self.at(k))
    }
}

/// Each firm of a table with what it has, and which bundle it would rather have.
pub(crate) fn firm_rows<T: Table>(
    alloc: Global,
    names: &Names,
    firms: &T,
) -> Result<Vec<u8>, OutOfMemory>
    requires { T.IsShort firms.now }
    ensures { IfOk result (λ text. text.items ≡ rows_text (firm_head ∷ T.rows names.now firms.now)) }
{
    let head = [
        Cell::Name("firm"),
        Cell::Name("content"),
        Cell::Name("worth"),
        Cell::Name("utility"),
        Cell::Name("best_utility"),
        Cell::Name("gain"),
        Cell::Name("has"),
        Cell::Name("best"),
    ];
    table_text(alloc, names, &head, firms)
}
