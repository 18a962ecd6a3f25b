//! Reads the rows of a table.

ghost use Rattle.std.specs.Prelude.{◌≡◌, ◌+◌, ◌^◌, ◌<◌, ◌≤◌, length, IfOk, OnOk};
ghost use Rattle.serde_json.specs.View.{view, items_view};
ghost use Rattle.tn_base.specs.Arcs.{IsAtMost};
ghost use Rattle.tn_base.specs.Widths.{most_amount};
ghost use Rattle.tn_model.specs.Limits.{most_own_of_table};
ghost use Rattle.tn_exchange.specs.Rows.{firm_of_table};
ghost use Rattle.tn_local.specs.First.{IsFullIfLarge};
ghost use Rattle.tn_read_references.specs.Ordered.{sides_of};
ghost use Rattle.tn_read_shapes.specs.Reading.{Gives};
ghost use Rattle.tn_read_firms.specs.Tables.{filled_count, full_if_large, one_row, rows_of, table_row_of};

use serde_json::Value;
use std::alloc::Global;
use tn_base::Bundle;
use tn_exchange::{RawTable, RowRefusal};
use tn_read_references::{Head, OwnPart, PartAt, own_bundle, sides_of};
use tn_read_shapes::{ReadError, fault, number, require, two};
use tn_said::PlaceStep::{Index, Key};
use tn_said::{FaultKind, Word};

/// The table of the rows of firm `f`, which has at most 14 own trades. With more than 10, every bundle that isn't empty
/// has a row.
#[tactic(auto, unfolding(crate::specs::Tables::rows_of))]
pub(crate) fn read_rows(
    alloc: Global,
    head: &Head,
    f: u32,
    rows: &[Value],
) -> Result<RawTable, ReadError>
    requires few { length (sides_of head.now.ends f) ≤ most_own_of_table }
    ensures few { IfOk result (λ table. length table.sides ≤ most_own_of_table) }
    ensures full { IfOk result (λ table. IsFullIfLarge (firm_of_table table)) }
    ensures gives { Gives (λ table. table) result
        (rows_of head.now f (items_view rows.now)) }
{
    let sides = sides_of(alloc, head.ends(), f)?;
    let mut table = RawTable::new(alloc, sides)?;
    let mut count = 0;
    for row in rows {
        read_row(alloc, head, f, count, &mut table, row)?;
        count += 1;
    }
    check_full(alloc, f, &table)?;
    Ok(table)
}

/// Whether a table of more than 10 own trades has a row for every bundle that isn't empty.
#[tactic(auto, unfolding(crate::specs::Tables::full_if_large))]
fn check_full(alloc: Global, f: u32, table: &RawTable) -> Result<(), ReadError>
    ensures gives { Gives (λ _. tt) result (full_if_large f table.now) }
    ensures full { OnOk result (IsFullIfLarge (firm_of_table table.now)) }
{
    let full = table.trades() <= 10 || table.full();
    require(
        alloc,
        full,
        FaultKind::Limit,
        &[Key(Word::Firms), Index(f), Key(Word::Rows)],
    )
}

/// Adds one more row, which comes after so many.
#[tactic(auto, unfolding(crate::specs::Tables::one_row))]
fn read_row(
    alloc: Global,
    head: &Head,
    f: u32,
    count: u32,
    table: &mut RawTable,
    row: &Value,
) -> Result<(), ReadError>
    requires few { length (sides_of head.now.ends f) ≤ most_own_of_table }
    requires sides { table.old.sides ≡ sides_of head.now.ends f }
    requires places { length table.old.rows ≡ 2 ^ length table.old.sides }
    ensures gives { Gives (λ _. record { count = count + 1; table = table.new }) result
        (one_row head.now f
        (record { count = count; table = table.old }) (view row.now)) }
    ensures sides { OnOk result (table.new.sides ≡ table.old.sides) }
    ensures places { OnOk result (length table.new.rows ≡ length table.old.rows) }
    ensures filled { OnOk result (filled_count table.new.rows ≡ filled_count table.old.rows + 1) }
{
    let (bundle, amount) = table_row_of(alloc, head, f, count, row)?;
    match table.add(bundle, amount) {
        Ok(()) => Ok(()),
        Err(RowRefusal::Same) => {
            let place = [Key(Word::Firms), Index(f), Key(Word::Rows), Index(count)];
            Err(fault(alloc, FaultKind::SameBundle, &place))
        }
    }
}

/// The bundle of row `r` and its number.
#[tactic(auto, unfolding(crate::specs::Tables::table_row_of))]
fn table_row_of(
    alloc: Global,
    head: &Head,
    f: u32,
    r: u32,
    row: &Value,
) -> Result<(Bundle, i128), ReadError>
    requires few { length (sides_of head.now.ends f) ≤ most_own_of_table }
    ensures gives { Gives (λ p. p) result
        (table_row_of head.now f r (view row.now)) }
    ensures own { IfOk result (λ p. p.0 < 2 ^ length (sides_of head.now.ends f)) }
    ensures small { IfOk result (λ p. IsAtMost p.1 most_amount) }
{
    let (f_step, r_step) = (Index(f), Index(r));
    let (references, amount) = two(
        alloc,
        row,
        &[Key(Word::Firms), f_step, Key(Word::Rows), r_step],
    )?;
    let at = PartAt::Item {
        list: Key(Word::Rows),
        item: r,
        part: Index(0),
    };
    let part = OwnPart { firm: f, at };
    let bundle = own_bundle(alloc, head, part, Some(references))?;
    let place = [Key(Word::Firms), f_step, Key(Word::Rows), r_step, Index(1)];
    let amount = number(alloc, head.limits().amount, Some(amount), &place)?;
    Ok((bundle, amount))
}
