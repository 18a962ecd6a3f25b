//! Documents with one fault, and with several, of which the first is told.

pub(crate) const FAULTS: &str = r#"check
{"version":1,"firms":[{"name":"S","kind":"table","rows":[[["a"],-3]]},{"name":"B","kind":"table","rows":[[["a"],5]]}],"trades":[{"name":"a","seller":"S","buyer":"B"}],"arrangement":{"on":[],"prices":[]}}
1 {"answer":"fault","fault":18,"name":"PriceMissing","place":["arrangement","prices","a"]}

check
{"version":1,"firms":[{"name":"S","kind":"table","rows":[[["a"],-3]]},{"name":"B","kind":"table","rows":[[["a"],5]]}],"trades":[{"name":"a","seller":"S","buyer":"B"}],"arrangement":{"on":["a","a"],"prices":[]}}
1 {"answer":"fault","fault":17,"name":"SameTrade","place":["arrangement","on",1]}

check
{"version":1,"firms":[{"name":"S","kind":"table","rows":[[["z"],-3]]},{"name":"B","kind":"table","rows":[[["a"],5]]}],"trades":[{"name":"a","seller":"S","buyer":"B"}]}
1 {"answer":"fault","fault":8,"name":"UnknownTrade","place":["firms",0,"rows",0,0,0]}

check
{"version":1,"firms":[{"name":"S","kind":"table","rows":[[["a"],-3],[["a"],-2]]},{"name":"B","kind":"table","rows":[[["a"],5]]}],"trades":[{"name":"a","seller":"S","buyer":"B"}]}
1 {"answer":"fault","fault":12,"name":"SameBundle","place":["firms",0,"rows",1]}

check
{"version":1,"firms":[{"name":"S","kind":"table","rows":[[["a"],-1000000000]]},{"name":"B","kind":"table","rows":[[["a"],1000000001]]}],"trades":[{"name":"a","seller":"S","buyer":"B"}]}
1 {"answer":"fault","fault":10,"name":"AmountRange","place":["firms",1,"rows",0,1]}

check
{"version":1,"firms":[{"name":"S","kind":"table","rows":[[["a"],-3]]},{"name":"B","kind":"table","rows":[[["a"],5]]}],"trades":[{"name":"a","seller":"S","buyer":"B"}],"arrangement":{"on":["a"],"prices":[["a",100000000000001]]}}
1 {"answer":"fault","fault":10,"name":"AmountRange","place":["arrangement","prices",0,1]}

check
{"version":1,"firms":[{"name":"S","kind":"table","rows":[[["a"],-3]]},{"name":"B","kind":"table","rows":[[["a"],5]]}],"trades":[{"name":"a","seller":"S","buyer":"B"}],"arrangement":{"on":["a"],"prices":[["a",100000000000000]]}}
6 {"answer":"better","bundle":[],"firm":"B","gain":99999999999995}

juge
{"version":1}
2 {"answer":"usage"}

check
{"version":1,"firms":[{"name":"S","kind":"laminar"},{"name":"B","kind":"laminar","sets":[{"trades":["a","b"],"from":0,"values":[0,3,7]}]}],"trades":[{"name":"a","seller":"S","buyer":"B"},{"name":"b","seller":"S","buyer":"B"}]}
1 {"answer":"fault","fault":15,"name":"NotConcave","place":["firms",1,"sets",0,"values",1]}

check
{"version":1,"firms":[{"name":"S","kind":"laminar"},{"name":"B","kind":"laminar","sets":[{"trades":["a","b"],"from":0,"values":[0,5,7]},{"trades":["b","c"],"from":0,"values":[0,5,7]}]}],"trades":[{"name":"a","seller":"S","buyer":"B"},{"name":"b","seller":"S","buyer":"B"},{"name":"c","seller":"S","buyer":"B"}]}
1 {"answer":"fault","fault":14,"name":"NotLaminar","place":["firms",1,"sets",1]}

check
{"version":1,"firms":[{"name":"S","kind":"table","rows":[[["a"],-3]]},{"name":"B","kind":"laminar","sets":[{"trades":["a"],"from":1,"values":[0]}]}],"trades":[{"name":"a","seller":"S","buyer":"B"}]}
1 {"answer":"fault","fault":13,"name":"NoEmpty","place":["firms",1,"sets",0]}

check
{"version":1,"firms":[{"name":"S","kind":"laminar","amounts":[["a",-1],["b b",-1]]},{"name":"B","kind":"table","rows":[[["a"],0],[["b"],0],[["a","b"],10]]}],"trades":[{"name":"a","seller":"S","buyer":"B"},{"name":"b b","seller":"S","buyer":"B"}]}
1 {"answer":"fault","fault":4,"name":"BadName","place":["trades",1,"name"]}

test
{"version":1,"firms":[{"name":"S","kind":"middleman","gains":[["a",1],["b",1]]},{"name":"B","kind":"middleman","gains":[["a",1]]}],"trades":[{"name":"a","seller":"S","buyer":"B"},{"name":"b","seller":"S","buyer":"B"}]}
1 {"answer":"fault","fault":11,"name":"NotOwnTrade","place":["firms",1,"gains",0,0]}

solve
{"firms":[{"name":"S","kind":"table","rows":[[["a"],-3]]},{"name":"B","kind":"table","rows":[[["a"],5]]}],"trades":[{"name":"a","seller":"S","buyer":"B"}]}
1 {"answer":"fault","fault":3,"name":"Shape","place":["version"]}

solve
{"version":1,"firms":[{"name":"S","kind":"table","rows":[[["a"],-3]]},{"name":"B","kind":"table","rows":[[["a"],5]]}],"trades":[{"name":"a b","seller":"S","buyer":"B"}]}
1 {"answer":"fault","fault":4,"name":"BadName","place":["trades",0,"name"]}

solve
{"version":1,"firms":[{"name":"S","kind":"table","rows":[[["a"],-3]]},{"name":"S","kind":"table","rows":[[["a"],5]]}],"trades":[{"name":"a","seller":"S","buyer":"B"}]}
1 {"answer":"fault","fault":5,"name":"SameName","place":["firms",1,"name"]}

solve
{"version":1,"firms":[{"name":"S","kind":"table","rows":[[["a"],-3]]},{"name":"B","kind":"table","rows":[[["a"],5]]}],"trades":[{"name":"a","seller":"X","buyer":"B"}]}
1 {"answer":"fault","fault":6,"name":"UnknownFirm","place":["trades",0,"seller"]}

solve
{"version":1,"firms":[{"name":"S","kind":"table","rows":[[["a"],-3]]},{"name":"B","kind":"table","rows":[[["a"],5]]}],"trades":[{"name":"a","seller":"S","buyer":"S"}]}
1 {"answer":"fault","fault":7,"name":"SelfTrade","place":["trades",0]}

solve
{"version":1,"firms":[{"name":"S","kind":"table","rows":[[["z"],-3]]},{"name":"B","kind":"table","rows":[[["a"],5]]}],"trades":[{"name":"a","seller":"S","buyer":"B"}]}
1 {"answer":"fault","fault":8,"name":"UnknownTrade","place":["firms",0,"rows",0,0,0]}

solve
{"version":1,"firms":[{"name":"S","kind":"table","rows":[[["a"],-3]]},{"name":"B","kind":"table","rows":[[["a"],5]]},{"name":"C","kind":"table","rows":[[["a"],1]]}],"trades":[{"name":"a","seller":"S","buyer":"B"}]}
1 {"answer":"fault","fault":11,"name":"NotOwnTrade","place":["firms",2,"rows",0,0,0]}

solve
{"version":1,"firms":[{"name":"S","kind":"table","rows":[[["a"],-3],[["a"],-2]]},{"name":"B","kind":"table","rows":[[["a"],5]]}],"trades":[{"name":"a","seller":"S","buyer":"B"}]}
1 {"answer":"fault","fault":12,"name":"SameBundle","place":["firms",0,"rows",1]}

solve
{"version":1,"firms":[{"name":"S","kind":"table","rows":[[["a"],-3]]},{"name":"B","kind":"laminar","sets":[{"trades":["a"],"from":1,"values":[0]}]}],"trades":[{"name":"a","seller":"S","buyer":"B"}]}
1 {"answer":"fault","fault":13,"name":"NoEmpty","place":["firms",1,"sets",0]}

solve
{"version":1,"firms":[{"name":"S","kind":"table","rows":[[["a"],-1000000000]]},{"name":"B","kind":"table","rows":[[["a"],1000000001]]}],"trades":[{"name":"a","seller":"S","buyer":"B"}]}
1 {"answer":"fault","fault":10,"name":"AmountRange","place":["firms",1,"rows",0,1]}

solve
{"version":3,"firms":[{"name":"S","kind":"table","rows":[[["a"],-10000000]]},{"name":"B","kind":"table","rows":[[["a"],10000001]]}],"trades":[{"name":"a","seller":"S","buyer":"B"}]}
1 {"answer":"fault","fault":10,"name":"AmountRange","place":["firms",1,"rows",0,1]}

solve
{"firms":[{"name":"
1 {"answer":"fault","fault":1,"name":"NotJson","place":[]}

check
{"firms":[{"name":"
1 {"answer":"fault","fault":1,"name":"NotJson","place":[]}

check
null
1 {"answer":"fault","fault":3,"name":"Shape","place":[]}

check
{"firms":[{"name":"S","kind":"table","rows":[[["a"],-3]]},{"name":"B","kind":"table","rows":[[["a"],5]]}],"trades":[{"name":"a","seller":"S","buyer":"B"}]}
1 {"answer":"fault","fault":3,"name":"Shape","place":["version"]}

check
{"version":1.0,"firms":[{"name":"S","kind":"table","rows":[[["a"],-3]]},{"name":"B","kind":"table","rows":[[["a"],5]]}],"trades":[{"name":"a","seller":"S","buyer":"B"}]}
1 {"answer":"fault","fault":3,"name":"Shape","place":["version"]}

check
{"version":5,"firms":[{"name":"S","kind":"table","rows":[[["a"],-3]]},{"name":"B","kind":"table","rows":[[["a"],5]]}],"trades":[{"name":"a","seller":"S","buyer":"B"}]}
1 {"answer":"fault","fault":3,"name":"Shape","place":["version"]}

check
{"version":1,"size":2,"firms":[{"name":"S","kind":"table","rows":[[["a"],-3]]},{"name":"B","kind":"table","rows":[[["a"],5]]}],"trades":[{"name":"a","seller":"S","buyer":"B"}]}
1 {"answer":"fault","fault":3,"name":"Shape","place":[]}

check
{"version":1,"firms":[{"name":"S","kind":"table","rows":[[["a"],-3]]},{"name":"B","kind":"table","rows":[[["a"],5]]}],"trades":[{"name":"a b","seller":"S","buyer":"B"}]}
1 {"answer":"fault","fault":4,"name":"BadName","place":["trades",0,"name"]}

check
{"version":1,"firms":[{"name":"S","kind":"table","rows":[[["a"],-3]]},{"name":"S","kind":"table","rows":[[["a"],5]]}],"trades":[{"name":"a","seller":"S","buyer":"B"}]}
1 {"answer":"fault","fault":5,"name":"SameName","place":["firms",1,"name"]}

check
{"version":1,"firms":[{"name":"S","kind":"table","rows":[[["a"],-3]]},{"name":"B","kind":"table","rows":[[["a"],5]]}],"trades":[{"name":"a","seller":"X","buyer":"B"}]}
1 {"answer":"fault","fault":6,"name":"UnknownFirm","place":["trades",0,"seller"]}

check
{"version":1,"firms":[{"name":"S","kind":"table","rows":[[["a"],-3]]},{"name":"B","kind":"table","rows":[[["a"],5]]}],"trades":[{"name":"a","seller":"S","buyer":"S"}]}
1 {"answer":"fault","fault":7,"name":"SelfTrade","place":["trades",0]}

check
{"version":1,"firms":[{"name":"S","kind":"table","rows":[[["a"],-3]]},{"name":"B","kind":"table","rows":[[["a"],5]]},{"name":"C","kind":"table","rows":[[["a"],1]]}],"trades":[{"name":"a","seller":"S","buyer":"B"}]}
1 {"answer":"fault","fault":11,"name":"NotOwnTrade","place":["firms",2,"rows",0,0,0]}

check
{"version":1,"firms":[{"name":"S","kind":"table","rows":[[["a"],-3],[["a"],-4]]},{"name":"B","kind":"table","rows":[[["a"],5]]}],"trades":[{"name":"a","seller":"S","buyer":"B"}]}
1 {"answer":"fault","fault":12,"name":"SameBundle","place":["firms",0,"rows",1]}

check
{"version":1,"firms":[{"name":"S","kind":"table","rows":[[["a","a"],-3]]},{"name":"B","kind":"table","rows":[[["a"],5]]}],"trades":[{"name":"a","seller":"S","buyer":"B"}]}
1 {"answer":"fault","fault":17,"name":"SameTrade","place":["firms",0,"rows",0,0,1]}

check
{"version":1,"firms":[{"name":"S","kind":"table","rows":[[["a"],-3]]},{"name":"B","kind":"table","rows":[[["a"],1000000001]]}],"trades":[{"name":"a","seller":"S","buyer":"B"}]}
1 {"answer":"fault","fault":10,"name":"AmountRange","place":["firms",1,"rows",0,1]}

check
{"version":1,"firms":[{"name":"S","kind":"laminar","rows":[[["a"],-3]]},{"name":"B","kind":"table","rows":[[["a"],5]]}],"trades":[{"name":"a","seller":"S","buyer":"B"}]}
1 {"answer":"fault","fault":3,"name":"Shape","place":["firms",0]}

check
{"version":1,"firms":[{"name":"S","kind":"table","rows":[[["a"],-3]]},{"name":"B","kind":"table","rows":[[["a"],5]]}],"trades":[{"name":"a","seller":"S","buyer":"B"}]}
1 {"answer":"fault","fault":3,"name":"Shape","place":["arrangement"]}

check
{"version":1,"firms":[{"name":"S","kind":"table","rows":[[["a"],-3]]},{"name":"B","kind":"table","rows":[[["a"],5]]}],"trades":[{"name":"a","seller":"S","buyer":"B"}],"arrangement":{"on":["a"],"prices":[["a",4],["a",4]]}}
1 {"answer":"fault","fault":17,"name":"SameTrade","place":["arrangement","prices",1,0]}

check
{"version":1,"firms":[{"name":"S","kind":"table","rows":[[["a"],-3]]},{"name":"B","kind":"table","rows":[[["a"],5]]}],"trades":[{"name":"a","seller":"S","buyer":"B"}],"arrangement":{"on":["a"],"prices":[["a",4]],"note":1}}
1 {"answer":"fault","fault":3,"name":"Shape","place":["arrangement"]}

check
{"size":1,"version":5}
1 {"answer":"fault","fault":3,"name":"Shape","place":[]}

check
{"version":5,"firms":1,"trades":1}
1 {"answer":"fault","fault":3,"name":"Shape","place":["version"]}

check
{"version":1,"firms":[{"name":"a b"}],"trades":1}
1 {"answer":"fault","fault":4,"name":"BadName","place":["firms",0,"name"]}

check
{"version":1,"firms":[{"name":"S","kind":1,"size":1}],"trades":[{"name":"a","seller":"S","buyer":"S"}]}
1 {"answer":"fault","fault":7,"name":"SelfTrade","place":["trades",0]}

check
{"version":1,"firms":[{"name":"S","kind":"table","rows":[[["a"],-3]]},{"name":"B","kind":"table","rows":[[["a"],5]]}],"trades":[{"size":1,"name":"a b","seller":"S","buyer":"B"}]}
1 {"answer":"fault","fault":3,"name":"Shape","place":["trades",0]}

check
{"version":1,"firms":[{"name":"S","kind":"table","rows":[[["a"],-3]]},{"name":"B","kind":"table","rows":[[["a"],5]]}],"trades":[{"name":"a b","seller":"X","buyer":"Y"}]}
1 {"answer":"fault","fault":4,"name":"BadName","place":["trades",0,"name"]}

check
{"version":1,"firms":[{"name":"S","kind":"table","rows":[[["a"],-3]]},{"name":"B","kind":"table","rows":[[["a"],5]]}],"trades":[{"name":"a","seller":"X","buyer":1}]}
1 {"answer":"fault","fault":6,"name":"UnknownFirm","place":["trades",0,"seller"]}

check
{"version":1,"firms":[{"name":"S","kind":"chair","size":1},{"name":"B","kind":"table","rows":[[["a"],5]]}],"trades":[{"name":"a","seller":"S","buyer":"B"}]}
1 {"answer":"fault","fault":3,"name":"Shape","place":["firms",0,"kind"]}

check
{"version":1,"firms":[{"name":"S","kind":"table","rows":1,"size":1},{"name":"B","kind":"table","rows":[[["a"],5]]}],"trades":[{"name":"a","seller":"S","buyer":"B"}]}
1 {"answer":"fault","fault":3,"name":"Shape","place":["firms",0]}

check
{"version":1,"firms":[{"name":"S","kind":"table","rows":[[[1,"z"],"b"]]},{"name":"B","kind":"table","rows":[[["a"],5]]}],"trades":[{"name":"a","seller":"S","buyer":"B"}]}
1 {"answer":"fault","fault":3,"name":"Shape","place":["firms",0,"rows",0,0,0]}

check
{"version":1,"firms":[{"name":"S","kind":"table","rows":[[["a","a","z"],"b"]]},{"name":"B","kind":"table","rows":[[["a"],5]]}],"trades":[{"name":"a","seller":"S","buyer":"B"}]}
1 {"answer":"fault","fault":17,"name":"SameTrade","place":["firms",0,"rows",0,0,1]}

check
{"version":1,"firms":[{"name":"S","kind":"table","rows":[[["a"],-3],[["a"],2000000000]]},{"name":"B","kind":"table","rows":[[["a"],5]]}],"trades":[{"name":"a","seller":"S","buyer":"B"}]}
1 {"answer":"fault","fault":10,"name":"AmountRange","place":["firms",0,"rows",1,1]}

check
{"version":1,"firms":[{"name":"S","kind":"table","rows":[[["a"],0],[["b"],0],[["a","b"],10]]},{"name":"B","kind":"table","rows":1}],"trades":[{"name":"a","seller":"S","buyer":"B"},{"name":"b","seller":"S","buyer":"B"}]}
1 {"answer":"fault","at":null,"fault":16,"name":"ExchangeFails","place":["firms",0],"x":["a","b"],"y":[]}

check
{"version":1,"firms":[{"name":"S","kind":"table","rows":[[["a"],0],[["b"],0],[["a","b"],10],1]},{"name":"B","kind":"table","rows":[]}],"trades":[{"name":"a","seller":"S","buyer":"B"},{"name":"b","seller":"S","buyer":"B"}]}
1 {"answer":"fault","fault":3,"name":"Shape","place":["firms",0,"rows",3]}

check
{"version":1,"firms":[{"name":"S","kind":"table","rows":1},{"name":"B","kind":"table","rows":[[["a"],0],[["b"],0],[["a","b"],10]]}],"trades":[{"name":"a","seller":"S","buyer":"B"},{"name":"b","seller":"S","buyer":"B"}]}
1 {"answer":"fault","fault":3,"name":"Shape","place":["firms",0,"rows"]}

check
{"version":1,"firms":[{"name":"S","kind":"table","rows":[[["a"],0],[["b"],0],[["a","b"],10]]},{"name":"B","kind":"table","rows":[]}],"trades":[{"name":"a","seller":"S","buyer":"B"},{"name":"b","seller":"S","buyer":"B"}]}
1 {"answer":"fault","at":null,"fault":16,"name":"ExchangeFails","place":["firms",0],"x":["a","b"],"y":[]}

check
{"version":1,"firms":[{"name":"S","kind":"table","rows":[[["a"],0],[["b"],0],[["a","b"],10]]},{"name":"B","kind":"table","rows":[]}],"trades":[{"name":"a","seller":"S","buyer":"B"},{"name":"b","seller":"S","buyer":"B"}],"arrangement":1}
1 {"answer":"fault","at":null,"fault":16,"name":"ExchangeFails","place":["firms",0],"x":["a","b"],"y":[]}

check
{"version":1,"firms":[{"name":"S","kind":"table","rows":[[["a"],-3]]},{"name":"B","kind":"table","rows":[[["a"],5]]}],"trades":[{"name":"a","seller":"S","buyer":"B"}],"arrangement":{"on":1,"prices":1}}
1 {"answer":"fault","fault":3,"name":"Shape","place":["arrangement","on"]}

check
{"version":1,"firms":[{"name":"S","kind":"table","rows":[[["a"],-3]]},{"name":"B","kind":"table","rows":[[["a"],5]]}],"trades":[{"name":"a","seller":"S","buyer":"B"}],"arrangement":{"on":[],"prices":[["z","b"]]}}
1 {"answer":"fault","fault":8,"name":"UnknownTrade","place":["arrangement","prices",0,0]}

check
{"version":1,"firms":[{"name":"S","kind":"table","rows":[[["a"],-3]]},{"name":"B","kind":"table","rows":[[["a"],5]]}],"trades":[{"name":"a","seller":"S","buyer":"B"}],"arrangement":{"on":[],"prices":[1]}}
1 {"answer":"fault","fault":3,"name":"Shape","place":["arrangement","prices",0]}

test
{"version":1,"firms":[{"name":"S","kind":"laminar"},{"name":"B","kind":"laminar"}],"trades":[{"name":"","seller":"S","buyer":"B"}]}
1 {"answer":"fault","fault":4,"name":"BadName","place":["trades",0,"name"]}

test
{"version":1,"firms":[{"name":"S","kind":"laminar"},{"name":"B","kind":"laminar"}],"trades":[{"name":"é","seller":"S","buyer":"B"}]}
1 {"answer":"fault","fault":4,"name":"BadName","place":["trades",0,"name"]}

test
{"version":1,"firms":[{"name":"S","kind":"laminar"},{"name":"B","kind":"laminar"}],"trades":[{"name":"0123456789abcdefghijklmnopqrstuvw","seller":"S","buyer":"B"}]}
1 {"answer":"fault","fault":4,"name":"BadName","place":["trades",0,"name"]}"#;
