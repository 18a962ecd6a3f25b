//! The text of an answer.

ghost use Rattle.std.specs.Prelude.{◌≡◌, ◌++◌, ◌∷◌, [], IfOk};
ghost use Rattle.serde_json.specs.Written.{compact_text};
ghost use Rattle.tn_answer.specs.AnswerText.{answer_data, answer_form, answer_line, answer_table, form_text, text_of};
ghost use Rattle.tn_answer.specs.declared.layout.Layout.{Layout};
ghost use Rattle.tn_names.specs.Names.{NameLists};
ghost use Rattle.tn_answer.specs.Sayable.{IsSayable};

use crate::layout::Layout;
use crate::pages::page_lines;
use crate::rows::{
    OnColumn, RangeRows, UnitRangeRows, deal_rows, firm_rows, price_rows, range_rows,
};
use crate::values::answer_value;
use std::alloc::Global;
use tn_base::OutOfMemory;
use tn_names::Names;
use tn_said::Said;

/// The text of an answer in a layout over some names. A firm or a trade without a name has an empty one. The numbers of
/// the answer fit 64 bits, and a fault shows a triple exactly where exchange fails. It fails only where memory runs
/// out.
#[tactic(auto, using(crate::proofs::LawLemmas::object_line), unfolding(crate::specs::AnswerText::answer_line))]
pub fn answer_text(
    alloc: Global,
    names: &Names,
    said: &Said,
    layout: Layout,
) -> Result<Vec<u8>, OutOfMemory>
    requires { IsSayable said.now }
    ensures { IfOk result (λ text. text.items ≡ answer_line layout names.now said.now) }
{
    match layout {
        Layout::Object => object_text(alloc, names, said),
        Layout::Rows => text_in_rows(alloc, names, said),
        Layout::WideRows => text_in_wide_rows(alloc, names, said),
    }
}

/// The text of an answer as an object, or of a page.
fn object_text(alloc: Global, names: &Names, said: &Said) -> Result<Vec<u8>, OutOfMemory>
    requires { IsSayable said.now }
    ensures { IfOk result (λ text. text.items ≡ form_text (answer_form names.now said.now)) }
{
    match said {
        Said::Page(page) => Ok(page_lines(*page).to_vec(alloc)?),
        said => line(alloc, names, said),
    }
}

/// The text of an answer as rows, where it has rows.
fn text_in_rows(alloc: Global, names: &Names, said: &Said) -> Result<Vec<u8>, OutOfMemory>
    requires { IsSayable said.now }
    ensures { IfOk result
        (λ text. text.items ≡ text_of (answer_table names.now said.now Layout.Rows) (answer_form names.now said.now)) }
{
    match said {
        Said::Solved { on, prices, .. } => price_rows(alloc, names, OnColumn::Flags(on), prices),
        Said::SolvedByCounts { counts, prices, .. } => {
            price_rows(alloc, names, OnColumn::Units(counts), prices)
        }
        Said::Supported { on, prices, ends } => {
            deal_rows(alloc, names, OnColumn::Flags(on), prices, ends)
        }
        Said::SupportedByCounts {
            counts,
            prices,
            ends,
        } => deal_rows(alloc, names, OnColumn::Units(counts), prices, ends),
        Said::Ranges { on, ranges, ends } => {
            range_rows(alloc, names, &RangeRows { on, ranges, ends })
        }
        Said::RangesByCounts {
            counts,
            ranges,
            ends,
        } => {
            let table = UnitRangeRows {
                counts,
                ranges,
                ends,
            };
            range_rows(alloc, names, &table)
        }
        Said::Firms { firms, .. } => firm_rows(alloc, names, firms),
        Said::FirmsByCounts { firms, .. } => firm_rows(alloc, names, firms),
        said => object_text(alloc, names, said),
    }
}

/// The text of an answer as wide rows, where it has such rows.
fn text_in_wide_rows(alloc: Global, names: &Names, said: &Said) -> Result<Vec<u8>, OutOfMemory>
    requires { IsSayable said.now }
    ensures { IfOk result
        (λ text. text.items ≡ text_of (answer_table names.now said.now Layout.WideRows)
        (answer_form names.now said.now)) }
{
    match said {
        Said::Solved {
            on,
            prices,
            ends,
            ..
        } => deal_rows(alloc, names, OnColumn::Flags(on), prices, ends),
        Said::SolvedByCounts {
            counts,
            prices,
            ends,
            ..
        } => deal_rows(alloc, names, OnColumn::Units(counts), prices, ends),
        said => object_text(alloc, names, said),
    }
}

/// The line of an answer that is written as one JSON value.
#[tactic(auto, using(crate::proofs::FloatLemmas::answer_has_no_float))]
fn line(alloc: Global, names: &Names, said: &Said) -> Result<Vec<u8>, OutOfMemory>
    requires { IsSayable said.now }
    ensures { IfOk result (λ text. text.items ≡ compact_text (answer_data names.now said.now) ++ 10 ∷ []) }
{
    let mut text = answer_value(alloc, names, said)?.to_vec(alloc)?;
    text.push(b'\n')?;
    Ok(text)
}

/// The text of the answer that the words are no command.
#[tactic(auto, unfolding(crate::specs::AnswerText::answer_line, serde_json::proofs::OnLiterals::serde_json_on_literals))]
pub fn usage_text() -> &'static [u8]
    ensures { (layout : Layout) (names : NameLists) → result.now ≡ answer_line layout names Said.Usage }
{
    b"{\"answer\":\"usage\"}\n"
}

/// The text of the answer that the input could not be read.
#[tactic(auto, unfolding(crate::specs::AnswerText::answer_line, serde_json::proofs::OnLiterals::serde_json_on_literals))]
pub fn read_fault_text() -> &'static [u8]
    ensures { (layout : Layout) (names : NameLists) → result.now ≡ answer_line layout names Said.ReadFault }
{
    b"{\"answer\":\"read_fault\"}\n"
}

/// The text of the answer that memory ran out.
#[tactic(auto, unfolding(crate::specs::AnswerText::answer_line, serde_json::proofs::OnLiterals::serde_json_on_literals))]
pub fn no_memory_text() -> &'static [u8]
    ensures { (layout : Layout) (names : NameLists) → result.now ≡ answer_line layout names Said.NoMemory }
{
    b"{\"answer\":\"no_memory\"}\n"
}
