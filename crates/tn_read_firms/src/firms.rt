//! Reads the firms in their order.

ghost use Rattle.std.specs.Prelude.{ℕ, ◌<◌, ◌≤◌, [], length, map, All, IfOk};
ghost use Rattle.serde_json.specs.View.{view, items_view};
ghost use Rattle.tn_exchange.specs.Rows.{firm_of_table};
ghost use Rattle.tn_local.specs.First.{IsFullIfLarge};
ghost use Rattle.tn_model.specs.Limits.{most_firms, most_own_of_table, most_own_trades};
ghost use Rattle.tn_read_firms.specs.Firms.{document_firm, firm_by, one_firm};
ghost use Rattle.tn_read_firms.specs.Kinds.{room_for};
ghost use Rattle.tn_read_references.specs.Ordered.{sides_of};
ghost use Rattle.tn_read_shapes.specs.Reading.{Gives, each};
ghost use Rattle.tn_read_firms.specs.Tables.{table_of};

use crate::dealers::dealer_of;
use crate::kinds::{check_frame, firm_kind_of};
use crate::laminars::laminar_of;
use crate::made::FromKinds;
use crate::middlemen::middle_of;
use crate::rows::read_rows;
use serde_json::Value;
use std::alloc::Global;
use tn_exchange::RawTable;
use tn_read_references::Head;
use tn_read_shapes::{FirmKind, ReadError, list, member};
use tn_said::PlaceStep::{Index, Key};
use tn_said::Word;

/// The firms in their order.
pub fn read_firms<F: FromKinds + Drop>(
    alloc: Global,
    head: &Head,
    firms: &[Value],
) -> Result<Vec<F>, ReadError>
    requires few { length firms.now ≤ most_firms }
    ensures gives { Gives (λ made. map F.firm made.items) result
        (each (one_firm F.tested head.now) [] (items_view firms.now)) }
    // Each firm that is read has few own trades.
    ensures few { IfOk result
        (λ made. (f : ℕ) → f < length made.items → length (sides_of head.now.ends f) ≤ most_own_trades) }
    ensures known { IfOk result (λ made. All F.known made.items) }
{
    let mut made = Vec::new(alloc);
    for firm in firms {
        let f = made.len() as u32;
        let next = document_firm(alloc, head, f, firm)?;
        made.push(next)?;
    }
    Ok(made)
}

#[tactic(auto, unfolding(crate::specs::Firms::document_firm))]
fn document_firm<F: FromKinds>(
    alloc: Global,
    head: &Head,
    f: u32,
    firm: &Value,
) -> Result<F, ReadError>
    ensures gives { Gives F.firm result
        (document_firm F.tested head.now f (view firm.now)) }
    ensures few { IfOk result (λ _. length (sides_of head.now.ends f) ≤ most_own_trades) }
    ensures known { IfOk result F.known }
{
    let kind = firm_kind_of(alloc, f, firm)?;
    check_frame(alloc, head, f, kind, firm)?;
    firm_by(alloc, head, f, kind, firm)
}

/// Firm `f`, which is of a kind.
#[tactic(auto, unfolding(crate::specs::Firms::firm_by))]
fn firm_by<F: FromKinds>(
    alloc: Global,
    head: &Head,
    f: u32,
    kind: FirmKind,
    firm: &Value,
) -> Result<F, ReadError>
    requires few { length (sides_of head.now.ends f) ≤ room_for kind }
    ensures gives { Gives F.firm result
        (firm_by F.tested head.now f kind (view firm.now)) }
    ensures known { IfOk result F.known }
{
    match kind {
        FirmKind::Table => {
            let table = table_of(alloc, head, f, firm)?;
            F::from_table(alloc, head, f, table)
        }
        FirmKind::Laminar => {
            let laminar = laminar_of(alloc, head, f, firm)?;
            Ok(F::from_laminar(laminar))
        }
        FirmKind::Middleman => {
            let middle = middle_of(alloc, head, f, firm)?;
            Ok(F::from_middle(middle))
        }
        FirmKind::Dealer => {
            let dealer = dealer_of(alloc, head, f, firm)?;
            Ok(F::from_dealer(dealer))
        }
    }
}

#[tactic(auto, unfolding(crate::specs::Tables::table_of))]
fn table_of(alloc: Global, head: &Head, f: u32, firm: &Value) -> Result<RawTable, ReadError>
    requires few { length (sides_of head.now.ends f) ≤ most_own_of_table }
    ensures few { IfOk result (λ table. length table.sides ≤ most_own_of_table) }
    ensures full { IfOk result (λ table. IsFullIfLarge (firm_of_table table)) }
    ensures gives { Gives (λ table. table) result
        (table_of head.now f (view firm.now)) }
{
    let rows = list(
        alloc,
        member(firm, Word::Rows),
        &[Key(Word::Firms), Index(f), Key(Word::Rows)],
    )?;
    read_rows(alloc, head, f, rows)
}
