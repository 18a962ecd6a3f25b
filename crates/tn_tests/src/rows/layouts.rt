//! Answers that are written as rows, answers that have none, and layouts that don't go with their command. The text of
//! a worked row may have several lines here.

pub(crate) const LAYOUTS: &str = r#"firms --csv
{"version":1,"firms":[{"name":"S","kind":"table","rows":[[["a"],-3]]},{"name":"B","kind":"table","rows":[[["a"],5]]}],"trades":[{"name":"a","seller":"S","buyer":"B"}],"arrangement":{"on":["a"],"prices":[["a",6]]}}
6 firm,content,worth,utility,best_utility,gain,has,best
S,1,-3,3,3,0,a,a
B,0,5,-1,0,1,a,

firms --csv
{"version":1,"firms":[{"name":"S","kind":"laminar","amounts":[["a",-1],["b",-1]]},{"name":"B","kind":"table","rows":[[["a"],4],[["b"],4],[["a","b"],7]]}],"trades":[{"name":"a","seller":"S","buyer":"B"},{"name":"b","seller":"S","buyer":"B"}],"arrangement":{"on":["a","b"],"prices":[["a",2],["b",2]]}}
0 firm,content,worth,utility,best_utility,gain,has,best
S,1,-2,2,2,0,a b,a b
B,1,7,3,3,0,a b,a b

range --csv
{"version":1,"firms":[{"name":"S","kind":"table","rows":[[["a"],-3]]},{"name":"B","kind":"table","rows":[[["a"],5]]}],"trades":[{"name":"a","seller":"S","buyer":"B"}],"arrangement":{"on":["a"],"prices":[["a",6]]}}
0 trade,seller,buyer,on,low,high
a,S,B,1,3,5

range --csv
{"version":1,"firms":[{"name":"S","kind":"table","rows":[[[],0]]},{"name":"B","kind":"table","rows":[[["a"],5]]}],"trades":[{"name":"a","seller":"S","buyer":"B"}]}
0 trade,seller,buyer,on,low,high
a,S,B,0,5,

support --csv
{"version":1,"firms":[{"name":"S","kind":"table","rows":[[["a"],-3]]},{"name":"B","kind":"table","rows":[[["a"],3]]}],"trades":[{"name":"a","seller":"S","buyer":"B"}],"arrangement":{"on":["a"]}}
0 trade,seller,buyer,on,price
a,S,B,1,3

solve --csv=wide
{"version":1,"firms":[{"name":"S","kind":"table","rows":[[["a"],-3]]},{"name":"B","kind":"table","rows":[[["a"],5]]}],"trades":[{"name":"a","seller":"S","buyer":"B"}],"arrangement":{"on":["a"],"prices":[["a",6]]}}
0 trade,seller,buyer,on,price
a,S,B,1,..

solve --csv
{"version":1,"firms":[{"name":"S","kind":"table","rows":[[["a"],-3]]},{"name":"B","kind":"table","rows":[[["a"],5]]}],"trades":[{"name":"a","seller":"S","buyer":"B"}],"arrangement":{"on":["a"],"prices":[["a",6]]}}
0 trade,on,price
a,1,..

support --csv
{"version":1,"firms":[{"name":"S","kind":"table","rows":[[["a"],-3]]},{"name":"B","kind":"table","rows":[[["a"],5]]}],"trades":[{"name":"a","seller":"S","buyer":"B"}],"arrangement":{"on":[]}}
6 {"answer":"cycle","cost":-2,"nodes":[null,"a"]}

range --csv
x
1 {"answer":"fault","fault":1,"name":"NotJson","place":[]}

solve --csv=wide
x
1 {"answer":"fault","fault":1,"name":"NotJson","place":[]}

judge --csv
{"version":1,"firms":[{"name":"S","kind":"table","rows":[[["a"],-3]]},{"name":"B","kind":"table","rows":[[["a"],5]]}],"trades":[{"name":"a","seller":"S","buyer":"B"}],"arrangement":{"on":["a"],"prices":[["a",6]]}}
2 {"answer":"usage"}

range --csv=wide
{"version":1,"firms":[{"name":"S","kind":"table","rows":[[["a"],-3]]},{"name":"B","kind":"table","rows":[[["a"],5]]}],"trades":[{"name":"a","seller":"S","buyer":"B"}],"arrangement":{"on":["a"],"prices":[["a",6]]}}
2 {"answer":"usage"}

solve --csv=narrow
{"version":1,"firms":[{"name":"S","kind":"table","rows":[[["a"],-3]]},{"name":"B","kind":"table","rows":[[["a"],5]]}],"trades":[{"name":"a","seller":"S","buyer":"B"}],"arrangement":{"on":["a"],"prices":[["a",6]]}}
2 {"answer":"usage"}

solve --csv --csv
{"version":1,"firms":[{"name":"S","kind":"table","rows":[[["a"],-3]]},{"name":"B","kind":"table","rows":[[["a"],5]]}],"trades":[{"name":"a","seller":"S","buyer":"B"}],"arrangement":{"on":["a"],"prices":[["a",6]]}}
2 {"answer":"usage"}

--csv solve
{"version":1,"firms":[{"name":"S","kind":"table","rows":[[["a"],-3]]},{"name":"B","kind":"table","rows":[[["a"],5]]}],"trades":[{"name":"a","seller":"S","buyer":"B"}],"arrangement":{"on":["a"],"prices":[["a",6]]}}
2 {"answer":"usage"}

cases --csv
{"version":1,"firms":[{"name":"S","kind":"table","rows":[[["a"],-3]]},{"name":"B","kind":"table","rows":[[["a"],5]]}],"trades":[{"name":"a","seller":"S","buyer":"B"}],"arrangement":{"on":["a"],"prices":[["a",6]]}}
2 {"answer":"usage"}

range --csv
{"version":4,"firms":[{"name":"S","kind":"laminar","sets":[{"trades":["a"],"sold":[[10,-3]]}]},{"name":"B","kind":"laminar","amounts":[["a",5]]}],"trades":[{"name":"a","seller":"S","buyer":"B","units":20}]}
0 trade,seller,buyer,on,low,high
a,S,B,10,5,5

support --csv
{"version":4,"firms":[{"name":"S","kind":"laminar","sets":[{"trades":["a"],"sold":[[10,-3]]}]},{"name":"B","kind":"laminar","amounts":[["a",5]]}],"trades":[{"name":"a","seller":"S","buyer":"B","units":20}],"arrangement":{"on":[["a",10]]}}
0 trade,seller,buyer,on,price
a,S,B,10,5

firms --csv
{"version":4,"firms":[{"name":"S","kind":"laminar","sets":[{"trades":["a"],"sold":[[10,-3]]}]},{"name":"B","kind":"laminar","amounts":[["a",5]]}],"trades":[{"name":"a","seller":"S","buyer":"B","units":20}],"arrangement":{"on":[["a",10]],"prices":[["a",4]]}}
6 firm,content,worth,utility,best_utility,gain,has,best
S,1,-30,10,10,0,a:10,a:10
B,0,50,10,20,10,a:10,a:20"#;
