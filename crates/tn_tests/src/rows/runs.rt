//! Whole runs on one deal and on texts that are no documents: verdicts, words that are no command, pages, and the
//! program's own cases. Two blank lines stand between two rows, since the help has a blank line.

pub(crate) const RUNS: &str = r#"
{"version":1,"firms":[{"name":"S","kind":"table","rows":[[["a"],-3]]},{"name":"B","kind":"table","rows":[[["a"],5]]}],"trades":[{"name":"a","seller":"S","buyer":"B"}],"arrangement":{"on":["a"],"prices":[["a",4]]}}
2 {"answer":"usage"}


check
{"version":1,"firms":[{"name":"S","kind":"table","rows":[[["a"],-3]]},{"name":"B","kind":"table","rows":[[["a"],5]]}],"trades":[{"name":"a","seller":"S","buyer":"B"}],"arrangement":{"on":["a"],"prices":[["a",4]]}}
0 {"answer":"equilibrium","surplus":2}


check
{"version":1,"firms":[{"name":"S","kind":"table","rows":[[["a"],-3]]},{"name":"B","kind":"table","rows":[[["a"],5]]}],"trades":[{"name":"a","seller":"S","buyer":"B"}],"arrangement":{"on":["a"],"prices":[["a",6]]}}
6 {"answer":"better","bundle":[],"firm":"B","gain":1}


check
{"firms":[{"name":"
1 {"answer":"fault","fault":1,"name":"NotJson","place":[]}


check

1 {"answer":"fault","fault":1,"name":"NotJson","place":[]}


check
null
1 {"answer":"fault","fault":3,"name":"Shape","place":[]}


solve solve
{"version":1,"firms":[{"name":"S","kind":"table","rows":[[["a"],-3]]},{"name":"B","kind":"table","rows":[[["a"],5]]}],"trades":[{"name":"a","seller":"S","buyer":"B"}],"arrangement":{"on":["a"],"prices":[["a",4]]}}
2 {"answer":"usage"}


check --help
{"version":1,"firms":[{"name":"S","kind":"table","rows":[[["a"],-3]]},{"name":"B","kind":"table","rows":[[["a"],5]]}],"trades":[{"name":"a","seller":"S","buyer":"B"}],"arrangement":{"on":["a"],"prices":[["a",4]]}}
0 market check: Is the arrangement an equilibrium?
..


solve -h
{"version":1,"firms":[{"name":"S","kind":"table","rows":[[["a"],-3]]},{"name":"B","kind":"table","rows":[[["a"],5]]}],"trades":[{"name":"a","seller":"S","buyer":"B"}],"arrangement":{"on":["a"],"prices":[["a",4]]}}
0 market solve: Which trades and prices are an equilibrium?
..


help judge
{"version":1,"firms":[{"name":"S","kind":"table","rows":[[["a"],-3]]},{"name":"B","kind":"table","rows":[[["a"],5]]}],"trades":[{"name":"a","seller":"S","buyer":"B"}],"arrangement":{"on":["a"],"prices":[["a",4]]}}
0 market judge: Would firms drop contracts of the outcome, or sign others?
..


help solev
{"version":1,"firms":[{"name":"S","kind":"table","rows":[[["a"],-3]]},{"name":"B","kind":"table","rows":[[["a"],5]]}],"trades":[{"name":"a","seller":"S","buyer":"B"}],"arrangement":{"on":["a"],"prices":[["a",4]]}}
2 {"answer":"usage"}


help
{"version":1,"firms":[{"name":"S","kind":"table","rows":[[["a"],-3]]},{"name":"B","kind":"table","rows":[[["a"],5]]}],"trades":[{"name":"a","seller":"S","buyer":"B"}],"arrangement":{"on":["a"],"prices":[["a",4]]}}
0 market finds, checks and judges equilibria of trading networks.

  check ..


-h
{"version":1,"firms":[{"name":"S","kind":"table","rows":[[["a"],-3]]},{"name":"B","kind":"table","rows":[[["a"],5]]}],"trades":[{"name":"a","seller":"S","buyer":"B"}],"arrangement":{"on":["a"],"prices":[["a",4]]}}
0 market finds, checks and judges equilibria of trading networks.

  check ..


--help
{"version":1,"firms":[{"name":"S","kind":"table","rows":[[["a"],-3]]},{"name":"B","kind":"table","rows":[[["a"],5]]}],"trades":[{"name":"a","seller":"S","buyer":"B"}],"arrangement":{"on":["a"],"prices":[["a",4]]}}
0 market finds, checks and judges equilibria of trading networks.

  check ..


--version
{"version":1,"firms":[{"name":"S","kind":"table","rows":[[["a"],-3]]},{"name":"B","kind":"table","rows":[[["a"],5]]}],"trades":[{"name":"a","seller":"S","buyer":"B"}],"arrangement":{"on":["a"],"prices":[["a",4]]}}
0 market ..


cases

0 {"answer":"cases","count":12,"failed":[]}"#;
