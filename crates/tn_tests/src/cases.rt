//! Tests of the book of cases.

use std::test::Fail;
use tn_cases::{Case, CaseBook, book};

/// One trade from S to B at the price 4, worth -3 and 5.
const DEAL: &str =
    r#"{"version":1,"firms":[{"name":"S","kind":"table","rows":[[["a"],-3]]},{"name":"B","kind":"table","rows":[[["a"],5]]}],"trades":[{"name":"a","seller":"S","buyer":"B"}],"arrangement":{"on":["a"],"prices":[["a",4]]}}"#;

const RIGHT: &str = "{\"answer\":\"equilibrium\",\"surplus\":2}\n";

const WRONG: &str = "{\"answer\":\"equilibrium\",\"surplus\":3}\n";

/// The deal's check twice, the second with another surplus than it must come to.
static TWO: [Case; 2] = [
    Case {
        command: "check",
        document: DEAL,
        status: 0,
        text: RIGHT,
    },
    Case {
        command: "check",
        document: DEAL,
        status: 0,
        text: WRONG,
    },
];

#[test]
fn agrees_with_the_status_and_the_text(rt: HostRuntime) -> Result<(), Fail> {
    let book = CaseBook::<2>::new(&TWO);
    let agrees = [
        book.agrees(0, 0, RIGHT.as_bytes()),
        book.agrees(1, 0, RIGHT.as_bytes()),
        book.agrees(0, 6, RIGHT.as_bytes()),
        book.agrees(1, 6, RIGHT.as_bytes()),
    ];
    assert!(rt; book.case(1).text == WRONG && agrees == [true, false, false, false]);
    Ok(())
}

#[test]
fn has_its_cases_in_order(rt: HostRuntime) -> Result<(), Fail> {
    let book = book();
    assert!(rt; book.case(0).document == DEAL && book.case(11).command == "replay");
    Ok(())
}
