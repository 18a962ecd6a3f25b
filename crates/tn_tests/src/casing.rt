//! Books of cases that are run.

use std::test::Fail;
use tn_cases::{Case, CaseBook};
use tn_run::run_cases;

/// One trade from S to B at the price 4, worth -3 and 5.
const DEAL: &str =
    r#"{"version":1,"firms":[{"name":"S","kind":"table","rows":[[["a"],-3]]},{"name":"B","kind":"table","rows":[[["a"],5]]}],"trades":[{"name":"a","seller":"S","buyer":"B"}],"arrangement":{"on":["a"],"prices":[["a",4]]}}"#;

/// The deal is checked twice, the second time for another surplus than it has.
static TWO: [Case; 2] = [
    Case {
        command: "check",
        document: DEAL,
        status: 0,
        text: "{\"answer\":\"equilibrium\",\"surplus\":2}\n",
    },
    Case {
        command: "check",
        document: DEAL,
        status: 0,
        text: "{\"answer\":\"equilibrium\",\"surplus\":3}\n",
    },
];

#[test]
fn lists_the_case_that_fails(rt: HostRuntime) -> Result<(), Fail> {
    let book = CaseBook::<2>::new(&TWO);
    let failed = run_cases(rt.alloc(), &book)?;
    assert!(rt; failed.len() == 1);
    assert!(rt; failed.at(0) == 2);
    Ok(())
}
