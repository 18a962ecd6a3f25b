//! A case, and a book of cases.

ghost use Rattle.std.specs.Prelude.{◌≡◌, ◌<◌, ◌≤◌, Some, length, map, option_map, slice_get};
ghost use Rattle.tn_cases.specs.Case.{agrees_with, case_data};

use std::marker::Model;

/// A command on a document, and what it must come to.
#[derive(Clone, Copy, Drop)]
pub struct Case {
    /// The words of the command.
    pub command: &'static str,
    /// What it reads.
    pub document: &'static str,
    /// The exit status.
    pub status: u8,
    /// The text that is written, with its line end.
    pub text: &'static str,
}

/// So many cases, in order. Contracts see the list of what they say.
#[derive(Drop)]
pub struct CaseBook<const N: usize> {
    cases: &'static [Case],
}

impl<const N: usize> Model for CaseBook<N> {
    ghost use Rattle.std.specs.Prelude.{◌≡◌, List, length, map};
    ghost use Rattle.tn_cases.specs.Case.{CaseData, case_data};

    ghost Value = { List CaseData };

    ghost view = { λ book. map case_data book.cases.now };

    ghost invariant = { λ book. length book.cases.now ≡ N };
}

impl<const N: usize> CaseBook<N> {
    /// A book of these cases. There are `N` of them, at most 64.
    pub fn new(cases: &'static [Case]) -> CaseBook<N>
        requires few { N ≤ 64 }
        requires count { length cases.now ≡ N }
        ensures cases { result ≡ map case_data cases.now }
        ensures count { length result ≡ N }
    {
        CaseBook { cases }
    }

    /// The case at index `k`. It is below `N`, which is at most 64.
    pub fn case(&self, k: usize) -> &Case
        requires few { N ≤ 64 }
        requires inside { k < N }
        ensures case { slice_get self.now k ≡ Some (case_data result.now) }
        ensures count { length self.now ≡ N }
    {
        &self.cases[k]
    }

    /// Whether this status and this text are those of the case at index `k`. It is below `N`, which is at most 64.
    pub fn agrees(&self, k: usize, status: u8, text: &[u8]) -> bool
        requires few { N ≤ 64 }
        requires inside { k < N }
        ensures { Some result ≡ option_map (agrees_with status text.now) (slice_get self.now k) }
    {
        let case = self.case(k);
        status == case.status && text == case.text.as_bytes()
    }
}
