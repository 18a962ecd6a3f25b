//! The program's own cases.

ghost use Rattle.std.specs.Prelude.{◌≡◌, ◌<◌, ◌≤◌, Some, All, IfOk, IfSome, length, option_map, slice_get};
ghost use Rattle.tn_answer.specs.AnswerText.{answer_line};
ghost use Rattle.tn_answer.specs.Kept.{IsWithinClaims};
ghost use Rattle.tn_cases.specs.Case.{agrees_with};
ghost use Rattle.tn_run.specs.Answer.{document_limit};
ghost use Rattle.tn_run.specs.Cases.{AreFailed, IsCaseAnswer, IsPassed, MayBeCases};
ghost use Rattle.tn_run.specs.Run.{status_of};
ghost use Rattle.tn_run.specs.Status.{status_number};
ghost use Rattle.tn_run.specs.Words.{case_command};

use crate::answer::answer_bytes;
use crate::command::{case_command, case_layout};
use crate::top::status_of;
use std::alloc::Global;
use tn_answer::{Layout, Names, answer_text};
use tn_base::OutOfMemory;
use tn_cases::{Case, CaseBook, book};
use tn_said::{Numbers, Said};

/// The answer to a case's command on its document, with the names that were read.
fn answer_case(alloc: Global, case: &Case) -> Result<(Said, Names), OutOfMemory>
    ensures answer { IfOk result (λ told. IsCaseAnswer (case_command case.now.command.now) case.now.document.now told.1
        told.0) }
    ensures within { IfOk result (λ told. IsWithinClaims told.0) }
{
    match case_command(case.command) {
        None => Ok((Said::Usage, Names::empty(alloc))),
        Some(command) => answer_bytes(alloc, command, case.document.as_bytes()),
    }
}

/// Whether an answer in a layout over some names has the status and the text of the case at index `k`.
fn is_told<const N: usize>(
    alloc: Global,
    book: &CaseBook<N>,
    k: usize,
    names: &Names,
    said: &Said,
    layout: Layout,
) -> Result<bool, OutOfMemory>
    requires few { N ≤ 64 }
    requires inside { k < N }
    requires within { IsWithinClaims said.now }
    ensures { IfOk result (λ same. Some same
        ≡ option_map (agrees_with (status_number (status_of said.now)) (answer_line layout names.now said.now))
        (slice_get book.now k)) }
{
    let text = answer_text(alloc, names, said, layout)?;
    Ok(book.agrees(k, status_of(said).number(), &text))
}

/// Whether a run of the case at index `k` comes to its status and its text.
fn passes<const N: usize>(alloc: Global, book: &CaseBook<N>, k: usize) -> Result<bool, OutOfMemory>
    requires few { N ≤ 64 }
    requires inside { k < N }
    ensures { IfOk result (λ passes. IfSome (slice_get book.now k) (IsPassed passes)) }
{
    let one = book.case(k);
    let (said, names) = answer_case(alloc, one)?;
    let told = is_told(alloc, book, k, &names, &said, case_layout(one.command));
    drop(said);
    drop(names);
    told
}

/// Runs each case's command on its document, and lists the numbers, from 1, of the cases that fail, ascending. What
/// isn't listed has the status and the text of a defined answer; of what is listed some defined answer has others.
/// There are at most 64 cases, with documents of at most 4,194,304 bytes. It fails only where memory runs out.
pub fn run_cases<const N: usize>(alloc: Global, book: &CaseBook<N>) -> Result<Numbers, OutOfMemory>
    requires few { N ≤ 64 }
    requires documents { All (λ case. length case.document ≤ document_limit) book.now }
    ensures { IfOk result (AreFailed N book.now) }
{
    let mut failed = Vec::new(alloc);
    for k in 0..N {
        if !passes(alloc, book, k)? {
            failed.push(k as u32 + 1)?;
        }
    }
    Ok(Numbers::from_vec(failed))
}

/// The answer of `cases`, or that memory ran out.
pub fn cases(alloc: Global) -> Said
    ensures cases { MayBeCases result }
    ensures within { IsWithinClaims result }
{
    match run_cases(alloc, &book()) {
        Ok(failed) => Said::Cases { count: 12, failed },
        Err(OutOfMemory) => Said::NoMemory,
    }
}
