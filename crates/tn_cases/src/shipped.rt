//! The book of cases that the program runs on itself.

ghost use Rattle.std.specs.Prelude.{◌≡◌};
ghost use Rattle.tn_cases.specs.Book.{cases_of_the_book};

use crate::case::{Case, CaseBook};

/// The book of rows, each a command, a document, the status and the text without its line end.
macro_rules! book_of {
    ($(($command:literal $document:literal => $status:literal $text:literal))*) => {
        CaseBook::new(&[$(Case {
            command: $command,
            document: $document,
            status: $status,
            text: concat!($text, "\n"),
        }),*])
    };
}

/// The cases that the program runs on itself.
pub fn book() -> CaseBook<12>
    ensures { result ≡ cases_of_the_book }
{
    book_of! {
        ("check" r#"{"version":1,"firms":[{"name":"S","kind":"table","rows":[[["a"],-3]]},{"name":"B","kind":"table","rows":[[["a"],5]]}],"trades":[{"name":"a","seller":"S","buyer":"B"}],"arrangement":{"on":["a"],"prices":[["a",4]]}}"# => 0 r#"{"answer":"equilibrium","surplus":2}"#)
        ("check" r#"{"version":1,"firms":[{"name":"S","kind":"table","rows":[[["a"],-3]]},{"name":"B","kind":"table","rows":[[["a"],5]]}],"trades":[{"name":"a","seller":"S","buyer":"B"}],"arrangement":{"on":["a"],"prices":[["a",6]]}}"# => 6 r#"{"answer":"better","bundle":[],"firm":"B","gain":1}"#)
        ("solve" r#"{"version":1,"firms":[{"name":"S","kind":"table","rows":[[[],7]]},{"name":"B","kind":"table","rows":[]}],"trades":[]}"# => 0 r#"{"answer":"solved","on":[],"prices":[],"surplus":7}"#)
        ("test" r#"{"version":1,"firms":[{"name":"S","kind":"laminar","amounts":[["a",-1],["b",-1]]},{"name":"B","kind":"table","rows":[[["a"],0],[["b"],0],[["a","b"],10]]}],"trades":[{"name":"a","seller":"S","buyer":"B"},{"name":"b","seller":"S","buyer":"B"}]}"# => 6 r#"{"answer":"exchange_fails","at":"a","firm":"B","x":["a","b"],"y":[]}"#)
        ("test" r#"{"version":1,"firms":[{"name":"S","kind":"table","rows":[[["a"],-1]]},{"name":"M","kind":"table","rows":[[[],0],[["a","b"],5]]},{"name":"B","kind":"table","rows":[[["b"],6]]}],"trades":[{"name":"a","seller":"S","buyer":"M"},{"name":"b","seller":"M","buyer":"B"}]}"# => 0 r#"{"answer":"accepted"}"#)
        ("test" r#"{"version":1,"firms":[{"name":"S","kind":"laminar"},{"name":"M","kind":"table","rows":[[["a1","b1"],5],[["a2","b2"],5]]},{"name":"B","kind":"laminar"}],"trades":[{"name":"a1","seller":"S","buyer":"M"},{"name":"a2","seller":"S","buyer":"M"},{"name":"b1","seller":"M","buyer":"B"},{"name":"b2","seller":"M","buyer":"B"}]}"# => 6 r#"{"answer":"exchange_fails","at":"a2","firm":"M","x":["a2","b2"],"y":["a1","b1"]}"#)
        ("support" r#"{"version":1,"firms":[{"name":"S","kind":"table","rows":[]},{"name":"B","kind":"table","rows":[[["a"],5]]}],"trades":[{"name":"a","seller":"S","buyer":"B"}],"arrangement":{"on":["a"]}}"# => 6 r#"{"answer":"impossible","firm":"S"}"#)
        ("judge" r#"{"version":1,"firms":[{"name":"S","kind":"table","rows":[[["a"],-5]]},{"name":"B","kind":"table","rows":[[["a"],5]]}],"trades":[{"name":"a","seller":"S","buyer":"B"}],"outcome":{"over":1,"contracts":[]}}"# => 0 r#"{"answer":"completes","over":1,"prices":[["a",5]]}"#)
        ("judge" r#"{"version":1,"firms":[{"name":"S","kind":"table","rows":[[["a"],-3]]},{"name":"B","kind":"table","rows":[[["a"],5]]}],"trades":[{"name":"a","seller":"S","buyer":"B"}],"outcome":{"over":1,"contracts":[["a",2]]}}"# => 6 r#"{"answer":"drops","firm":"S","gain":1,"keeps":[],"over":1}"#)
        ("judge" r#"{"version":1,"firms":[{"name":"S","kind":"table","rows":[[["a"],-3]]},{"name":"B","kind":"table","rows":[[["a"],5]]}],"trades":[{"name":"a","seller":"S","buyer":"B"}],"outcome":{"over":2,"contracts":[["a",9]]}}"# => 0 r#"{"answer":"completes","over":2,"prices":[["a",9]]}"#)
        ("support" r#"{"version":1,"firms":[{"name":"S","kind":"table","rows":[[["a"],-3]]},{"name":"B","kind":"table","rows":[[["a"],5]]}],"trades":[{"name":"a","seller":"S","buyer":"B"}],"arrangement":{"on":[]}}"# => 6 r#"{"answer":"cycle","cost":-2,"nodes":[null,"a"]}"#)
        ("replay" r#"{"version":1,"firms":[{"name":"S","kind":"table","rows":[[["a"],-3]]},{"name":"B","kind":"table","rows":[[["a"],5]]}],"trades":[{"name":"a","seller":"S","buyer":"B"}],"outcome":{"over":1,"contracts":[]},"claim":{"answer":"blocks","contracts":[["a",9]],"over":3}}"# => 6 r#"{"answer":"invalid","firm":"S","reason":"choice","trade":"a"}"#)
    }
}
