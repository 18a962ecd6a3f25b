//! Faults of laminar firms and middlemen, of outcomes and of edits.

pub(crate) const PARTS: &str = r#"solve
{"version":1,"firms":[{"name":"S","kind":"laminar"},{"name":"B","kind":"laminar","costs":[]}],"trades":[{"name":"a","seller":"S","buyer":"B"},{"name":"b","seller":"S","buyer":"B"},{"name":"c","seller":"B","buyer":"S"}]}
1 {"answer":"fault","fault":3,"name":"Shape","place":["firms",1]}

solve
{"version":1,"firms":[{"name":"S","kind":"laminar"},{"name":"B","kind":"laminar","amounts":null}],"trades":[{"name":"a","seller":"S","buyer":"B"},{"name":"b","seller":"S","buyer":"B"},{"name":"c","seller":"B","buyer":"S"}]}
1 {"answer":"fault","fault":3,"name":"Shape","place":["firms",1,"amounts"]}

solve
{"version":1,"firms":[{"name":"S","kind":"laminar"},{"name":"B","kind":"laminar","amounts":[["a",1,2]],"sets":1}],"trades":[{"name":"a","seller":"S","buyer":"B"},{"name":"b","seller":"S","buyer":"B"},{"name":"c","seller":"B","buyer":"S"}]}
1 {"answer":"fault","fault":3,"name":"Shape","place":["firms",1,"amounts",0]}

solve
{"version":1,"firms":[{"name":"S","kind":"laminar"},{"name":"B","kind":"laminar","amounts":[["z","x"]]}],"trades":[{"name":"a","seller":"S","buyer":"B"},{"name":"b","seller":"S","buyer":"B"},{"name":"c","seller":"B","buyer":"S"}]}
1 {"answer":"fault","fault":8,"name":"UnknownTrade","place":["firms",1,"amounts",0,0]}

solve
{"version":1,"firms":[{"name":"S","kind":"laminar"},{"name":"B","kind":"laminar","amounts":[["a",1],["a","x"]]}],"trades":[{"name":"a","seller":"S","buyer":"B"},{"name":"b","seller":"S","buyer":"B"},{"name":"c","seller":"B","buyer":"S"}]}
1 {"answer":"fault","fault":17,"name":"SameTrade","place":["firms",1,"amounts",1,0]}

solve
{"version":1,"firms":[{"name":"S","kind":"laminar"},{"name":"B","kind":"laminar","amounts":[["c",1],["a",1000000001]]}],"trades":[{"name":"a","seller":"S","buyer":"B"},{"name":"b","seller":"S","buyer":"B"},{"name":"c","seller":"B","buyer":"S"}]}
1 {"answer":"fault","fault":10,"name":"AmountRange","place":["firms",1,"amounts",1,1]}

solve
{"version":1,"firms":[{"name":"S","kind":"laminar"},{"name":"B","kind":"laminar","sets":null}],"trades":[{"name":"a","seller":"S","buyer":"B"},{"name":"b","seller":"S","buyer":"B"},{"name":"c","seller":"B","buyer":"S"}]}
1 {"answer":"fault","fault":3,"name":"Shape","place":["firms",1,"sets"]}

solve
{"version":1,"firms":[{"name":"S","kind":"laminar"},{"name":"B","kind":"laminar","sets":[{"trades":[],"from":0,"values":[0],"note":1}]}],"trades":[{"name":"a","seller":"S","buyer":"B"},{"name":"b","seller":"S","buyer":"B"},{"name":"c","seller":"B","buyer":"S"}]}
1 {"answer":"fault","fault":3,"name":"Shape","place":["firms",1,"sets",0]}

solve
{"version":1,"firms":[{"name":"S","kind":"laminar"},{"name":"B","kind":"laminar","sets":[{"from":0,"values":[0]}]}],"trades":[{"name":"a","seller":"S","buyer":"B"},{"name":"b","seller":"S","buyer":"B"},{"name":"c","seller":"B","buyer":"S"}]}
1 {"answer":"fault","fault":3,"name":"Shape","place":["firms",1,"sets",0,"trades"]}

solve
{"version":1,"firms":[{"name":"S","kind":"laminar"},{"name":"B","kind":"laminar","sets":[{"trades":["a","a"],"values":[0]}]}],"trades":[{"name":"a","seller":"S","buyer":"B"},{"name":"b","seller":"S","buyer":"B"},{"name":"c","seller":"B","buyer":"S"}]}
1 {"answer":"fault","fault":17,"name":"SameTrade","place":["firms",1,"sets",0,"trades",1]}

solve
{"version":1,"firms":[{"name":"S","kind":"laminar"},{"name":"B","kind":"laminar","sets":[{"trades":["a"],"values":[0]}]}],"trades":[{"name":"a","seller":"S","buyer":"B"},{"name":"b","seller":"S","buyer":"B"},{"name":"c","seller":"B","buyer":"S"}]}
1 {"answer":"fault","fault":3,"name":"Shape","place":["firms",1,"sets",0,"from"]}

solve
{"version":1,"firms":[{"name":"S","kind":"laminar"},{"name":"B","kind":"laminar","sets":[{"trades":["a"],"from":-33,"values":1}]}],"trades":[{"name":"a","seller":"S","buyer":"B"},{"name":"b","seller":"S","buyer":"B"},{"name":"c","seller":"B","buyer":"S"}]}
1 {"answer":"fault","fault":9,"name":"Limit","place":["firms",1,"sets",0,"from"]}

solve
{"version":2,"firms":[{"name":"S","kind":"table","rows":[[["a"],-3]]},{"name":"B","kind":"laminar","amounts":[["a",5]],"sets":[{"trades":["a"],"from":-60,"values":[0,0,0,0,0,0,0,0,0,0,0,0,0,0,0,0,0,0,0,0,0,0,0,0,0,0,0,0,0,0,0,0,0,0,0,0,0,0,0,0,0,0,0,0,0,0,0,0,0,0,0,0,0,0,0,0,0,0,0,0,0,-1]}]}],"trades":[{"name":"a","seller":"S","buyer":"B"}]}
1 {"answer":"fault","fault":9,"name":"Limit","place":["firms",1,"sets",0,"from"]}

solve
{"version":1,"firms":[{"name":"S","kind":"laminar"},{"name":"B","kind":"laminar","sets":[{"trades":["a"],"from":32}]}],"trades":[{"name":"a","seller":"S","buyer":"B"},{"name":"b","seller":"S","buyer":"B"},{"name":"c","seller":"B","buyer":"S"}]}
1 {"answer":"fault","fault":3,"name":"Shape","place":["firms",1,"sets",0,"values"]}

solve
{"version":1,"firms":[{"name":"S","kind":"laminar"},{"name":"B","kind":"laminar","sets":[{"trades":["a"],"from":0,"values":[0,null]}]}],"trades":[{"name":"a","seller":"S","buyer":"B"},{"name":"b","seller":"S","buyer":"B"},{"name":"c","seller":"B","buyer":"S"}]}
1 {"answer":"fault","fault":3,"name":"Shape","place":["firms",1,"sets",0,"values",1]}

solve
{"version":1,"firms":[{"name":"S","kind":"laminar"},{"name":"B","kind":"laminar","sets":[{"trades":["a"],"from":0,"values":[-1000000001]}]}],"trades":[{"name":"a","seller":"S","buyer":"B"},{"name":"b","seller":"S","buyer":"B"},{"name":"c","seller":"B","buyer":"S"}]}
1 {"answer":"fault","fault":10,"name":"AmountRange","place":["firms",1,"sets",0,"values",0]}

solve
{"version":1,"firms":[{"name":"S","kind":"laminar"},{"name":"B","kind":"laminar","sets":[{"trades":["a"],"from":1,"values":[0]}]}],"trades":[{"name":"a","seller":"S","buyer":"B"},{"name":"b","seller":"S","buyer":"B"},{"name":"c","seller":"B","buyer":"S"}]}
1 {"answer":"fault","fault":13,"name":"NoEmpty","place":["firms",1,"sets",0]}

solve
{"version":1,"firms":[{"name":"S","kind":"laminar"},{"name":"B","kind":"laminar","sets":[{"trades":["a","b"],"from":0,"values":[0,3,7]}]}],"trades":[{"name":"a","seller":"S","buyer":"B"},{"name":"b","seller":"S","buyer":"B"},{"name":"c","seller":"B","buyer":"S"}]}
1 {"answer":"fault","fault":15,"name":"NotConcave","place":["firms",1,"sets",0,"values",1]}

solve
{"version":1,"firms":[{"name":"S","kind":"laminar"},{"name":"B","kind":"laminar","sets":[{"trades":["a","b"],"from":0,"values":[0]},{"trades":["b","c"],"from":0,"values":[0]}]}],"trades":[{"name":"a","seller":"S","buyer":"B"},{"name":"b","seller":"S","buyer":"B"},{"name":"c","seller":"B","buyer":"S"}]}
1 {"answer":"fault","fault":14,"name":"NotLaminar","place":["firms",1,"sets",1]}

solve
{"version":1,"firms":[{"name":"S","kind":"laminar"},{"name":"B","kind":"laminar","sets":[{"trades":["a","b"],"from":0,"values":[0,3,7]},{"trades":["a"],"from":0,"values":null}]}],"trades":[{"name":"a","seller":"S","buyer":"B"},{"name":"b","seller":"S","buyer":"B"},{"name":"c","seller":"B","buyer":"S"}]}
1 {"answer":"fault","fault":3,"name":"Shape","place":["firms",1,"sets",1,"values"]}

solve
{"version":1,"firms":[{"name":"S","kind":"laminar"},{"name":"B","kind":"laminar","sets":[{"trades":["a","b"],"from":0,"values":[0,3,7]},{"trades":["b","c"],"from":1,"values":[0]}]}],"trades":[{"name":"a","seller":"S","buyer":"B"},{"name":"b","seller":"S","buyer":"B"},{"name":"c","seller":"B","buyer":"S"}]}
1 {"answer":"fault","fault":15,"name":"NotConcave","place":["firms",1,"sets",0,"values",1]}

solve
{"version":1,"firms":[{"name":"S","kind":"laminar"},{"name":"B","kind":"laminar","sets":[{"trades":["a","b"],"from":0,"values":[0]},{"trades":["b","c"],"from":-1,"values":[0,0,1]}]}],"trades":[{"name":"a","seller":"S","buyer":"B"},{"name":"b","seller":"S","buyer":"B"},{"name":"c","seller":"B","buyer":"S"}]}
1 {"answer":"fault","fault":15,"name":"NotConcave","place":["firms",1,"sets",1,"values",1]}

solve
{"version":1,"firms":[{"name":"S","kind":"laminar"},{"name":"B","kind":"laminar","sets":[{"trades":["a","b"],"from":0,"values":[0]},{"trades":["b","c"],"from":-1,"values":[0]}]}],"trades":[{"name":"a","seller":"S","buyer":"B"},{"name":"b","seller":"S","buyer":"B"},{"name":"c","seller":"B","buyer":"S"}]}
1 {"answer":"fault","fault":13,"name":"NoEmpty","place":["firms",1,"sets",1]}

solve
{"version":1,"firms":[{"name":"S","kind":"laminar"},{"name":"B","kind":"middleman","amounts":[]}],"trades":[{"name":"a","seller":"S","buyer":"B"},{"name":"b","seller":"S","buyer":"B"},{"name":"c","seller":"B","buyer":"S"}]}
1 {"answer":"fault","fault":3,"name":"Shape","place":["firms",1]}

solve
{"version":1,"firms":[{"name":"S","kind":"laminar"},{"name":"B","kind":"middleman","costs":[["a",2],["c",3]],"gains":1}],"trades":[{"name":"a","seller":"S","buyer":"B"},{"name":"b","seller":"S","buyer":"B"},{"name":"c","seller":"B","buyer":"S"}]}
1 {"answer":"fault","fault":11,"name":"NotOwnTrade","place":["firms",1,"costs",1,0]}

solve
{"version":1,"firms":[{"name":"S","kind":"laminar"},{"name":"B","kind":"middleman","gains":[["a",2]],"keep":"x"}],"trades":[{"name":"a","seller":"S","buyer":"B"},{"name":"b","seller":"S","buyer":"B"},{"name":"c","seller":"B","buyer":"S"}]}
1 {"answer":"fault","fault":11,"name":"NotOwnTrade","place":["firms",1,"gains",0,0]}

solve
{"version":1,"firms":[{"name":"S","kind":"laminar"},{"name":"B","kind":"middleman","costs":[["b",1],["b",1]]}],"trades":[{"name":"a","seller":"S","buyer":"B"},{"name":"b","seller":"S","buyer":"B"},{"name":"c","seller":"B","buyer":"S"}]}
1 {"answer":"fault","fault":17,"name":"SameTrade","place":["firms",1,"costs",1,0]}

solve
{"version":1,"firms":[{"name":"S","kind":"laminar"},{"name":"B","kind":"middleman","gains":[["c",1.5]]}],"trades":[{"name":"a","seller":"S","buyer":"B"},{"name":"b","seller":"S","buyer":"B"},{"name":"c","seller":"B","buyer":"S"}]}
1 {"answer":"fault","fault":3,"name":"Shape","place":["firms",1,"gains",0,1]}

solve
{"version":1,"firms":[{"name":"S","kind":"laminar"},{"name":"B","kind":"middleman","keep":"x"}],"trades":[{"name":"a","seller":"S","buyer":"B"},{"name":"b","seller":"S","buyer":"B"},{"name":"c","seller":"B","buyer":"S"}]}
1 {"answer":"fault","fault":3,"name":"Shape","place":["firms",1,"keep"]}

solve
{"version":1,"firms":[{"name":"S","kind":"laminar"},{"name":"B","kind":"middleman","keep":-1000000001}],"trades":[{"name":"a","seller":"S","buyer":"B"},{"name":"b","seller":"S","buyer":"B"},{"name":"c","seller":"B","buyer":"S"}]}
1 {"answer":"fault","fault":10,"name":"AmountRange","place":["firms",1,"keep"]}

judge
{"version":1,"firms":[{"name":"S","kind":"laminar"},{"name":"B","kind":"laminar"}],"trades":[{"name":"a","seller":"S","buyer":"B"},{"name":"b","seller":"S","buyer":"B"}],"note":1}
1 {"answer":"fault","fault":3,"name":"Shape","place":["outcome"]}

judge
{"version":1,"firms":[{"name":"S","kind":"laminar"},{"name":"B","kind":"laminar"}],"trades":[{"name":"a","seller":"S","buyer":"B"},{"name":"b","seller":"S","buyer":"B"}],"outcome":[]}
1 {"answer":"fault","fault":3,"name":"Shape","place":["outcome"]}

judge
{"version":1,"firms":[{"name":"S","kind":"laminar"},{"name":"B","kind":"laminar"}],"trades":[{"name":"a","seller":"S","buyer":"B"},{"name":"b","seller":"S","buyer":"B"}],"outcome":{"over":0,"contracts":[],"note":1}}
1 {"answer":"fault","fault":3,"name":"Shape","place":["outcome"]}

judge
{"version":1,"firms":[{"name":"S","kind":"laminar"},{"name":"B","kind":"laminar"}],"trades":[{"name":"a","seller":"S","buyer":"B"},{"name":"b","seller":"S","buyer":"B"}],"outcome":{"contracts":[]}}
1 {"answer":"fault","fault":3,"name":"Shape","place":["outcome","over"]}

judge
{"version":1,"firms":[{"name":"S","kind":"laminar"},{"name":"B","kind":"laminar"}],"trades":[{"name":"a","seller":"S","buyer":"B"},{"name":"b","seller":"S","buyer":"B"}],"outcome":{"over":1.0,"contracts":[]}}
1 {"answer":"fault","fault":3,"name":"Shape","place":["outcome","over"]}

judge
{"version":1,"firms":[{"name":"S","kind":"laminar"},{"name":"B","kind":"laminar"}],"trades":[{"name":"a","seller":"S","buyer":"B"},{"name":"b","seller":"S","buyer":"B"}],"outcome":{"over":0,"contracts":[]}}
1 {"answer":"fault","fault":19,"name":"BadOver","place":["outcome","over"]}

judge
{"version":1,"firms":[{"name":"S","kind":"laminar"},{"name":"B","kind":"laminar"}],"trades":[{"name":"a","seller":"S","buyer":"B"},{"name":"b","seller":"S","buyer":"B"}],"outcome":{"over":-1,"contracts":[]}}
1 {"answer":"fault","fault":19,"name":"BadOver","place":["outcome","over"]}

judge
{"version":1,"firms":[{"name":"S","kind":"laminar"},{"name":"B","kind":"laminar"}],"trades":[{"name":"a","seller":"S","buyer":"B"},{"name":"b","seller":"S","buyer":"B"}],"outcome":{"over":101,"contracts":1}}
1 {"answer":"fault","fault":19,"name":"BadOver","place":["outcome","over"]}

judge
{"version":1,"firms":[{"name":"S","kind":"laminar"},{"name":"B","kind":"laminar"}],"trades":[{"name":"a","seller":"S","buyer":"B"},{"name":"b","seller":"S","buyer":"B"}],"outcome":{"over":1}}
1 {"answer":"fault","fault":3,"name":"Shape","place":["outcome","contracts"]}

judge
{"version":1,"firms":[{"name":"S","kind":"laminar"},{"name":"B","kind":"laminar"}],"trades":[{"name":"a","seller":"S","buyer":"B"},{"name":"b","seller":"S","buyer":"B"}],"outcome":{"over":1,"contracts":[["a"]]}}
1 {"answer":"fault","fault":3,"name":"Shape","place":["outcome","contracts",0]}

judge
{"version":1,"firms":[{"name":"S","kind":"laminar"},{"name":"B","kind":"laminar"}],"trades":[{"name":"a","seller":"S","buyer":"B"},{"name":"b","seller":"S","buyer":"B"}],"outcome":{"over":1,"contracts":[["z","b"]]}}
1 {"answer":"fault","fault":8,"name":"UnknownTrade","place":["outcome","contracts",0,0]}

judge
{"version":1,"firms":[{"name":"S","kind":"laminar"},{"name":"B","kind":"laminar"}],"trades":[{"name":"a","seller":"S","buyer":"B"},{"name":"b","seller":"S","buyer":"B"}],"outcome":{"over":1,"contracts":[["a",4],["a",5]]}}
1 {"answer":"fault","fault":17,"name":"SameTrade","place":["outcome","contracts",1,0]}

judge
{"version":1,"firms":[{"name":"S","kind":"laminar"},{"name":"B","kind":"laminar"}],"trades":[{"name":"a","seller":"S","buyer":"B"},{"name":"b","seller":"S","buyer":"B"}],"outcome":{"over":1,"contracts":[["b",1],["a",2.5]]}}
1 {"answer":"fault","fault":3,"name":"Shape","place":["outcome","contracts",1,1]}

judge
{"version":1,"firms":[{"name":"S","kind":"laminar"},{"name":"B","kind":"laminar"}],"trades":[{"name":"a","seller":"S","buyer":"B"},{"name":"b","seller":"S","buyer":"B"}],"outcome":{"over":1,"contracts":[["a",100000000001]]}}
1 {"answer":"fault","fault":10,"name":"AmountRange","place":["outcome","contracts",0,1]}

judge
{"version":1,"firms":[{"name":"S","kind":"laminar"},{"name":"B","kind":"laminar"}],"trades":[{"name":"a","seller":"S","buyer":"B"},{"name":"b","seller":"S","buyer":"B"}],"outcome":{"over":1,"contracts":[["a",-100000000001]]}}
1 {"answer":"fault","fault":10,"name":"AmountRange","place":["outcome","contracts",0,1]}

session
{"version":1,"firms":[{"name":"S","kind":"laminar"},{"name":"B","kind":"laminar"}],"trades":[{"name":"a","seller":"S","buyer":"B"},{"name":"b","seller":"S","buyer":"B"}],"note":1}
1 {"answer":"fault","fault":3,"name":"Shape","place":["edits"]}

session
{"version":1,"firms":[{"name":"S","kind":"laminar"},{"name":"B","kind":"laminar"}],"trades":[{"name":"a","seller":"S","buyer":"B"},{"name":"b","seller":"S","buyer":"B"}],"edits":{}}
1 {"answer":"fault","fault":3,"name":"Shape","place":["edits"]}

session
{"version":1,"firms":[{"name":"S","kind":"laminar"},{"name":"B","kind":"laminar"}],"trades":[{"name":"a","seller":"S","buyer":"B"},{"name":"b","seller":"S","buyer":"B"}],"edits":[["admit","a"],["bar"]]}
1 {"answer":"fault","fault":3,"name":"Shape","place":["edits",1]}

session
{"version":1,"firms":[{"name":"S","kind":"laminar"},{"name":"B","kind":"laminar"}],"trades":[{"name":"a","seller":"S","buyer":"B"},{"name":"b","seller":"S","buyer":"B"}],"edits":[["admit","a",1]]}
1 {"answer":"fault","fault":3,"name":"Shape","place":["edits",0]}

session
{"version":1,"firms":[{"name":"S","kind":"laminar"},{"name":"B","kind":"laminar"}],"trades":[{"name":"a","seller":"S","buyer":"B"},{"name":"b","seller":"S","buyer":"B"}],"edits":[["drop","a"]]}
1 {"answer":"fault","fault":3,"name":"Shape","place":["edits",0,0]}

session
{"version":1,"firms":[{"name":"S","kind":"laminar"},{"name":"B","kind":"laminar"}],"trades":[{"name":"a","seller":"S","buyer":"B"},{"name":"b","seller":"S","buyer":"B"}],"edits":[[1,2]]}
1 {"answer":"fault","fault":3,"name":"Shape","place":["edits",0,0]}

session
{"version":1,"firms":[{"name":"S","kind":"laminar"},{"name":"B","kind":"laminar"}],"trades":[{"name":"a","seller":"S","buyer":"B"},{"name":"b","seller":"S","buyer":"B"}],"edits":[["Bar","z"]]}
1 {"answer":"fault","fault":3,"name":"Shape","place":["edits",0,0]}

session
{"version":1,"firms":[{"name":"S","kind":"laminar"},{"name":"B","kind":"laminar"}],"trades":[{"name":"a","seller":"S","buyer":"B"},{"name":"b","seller":"S","buyer":"B"}],"edits":[["bar",1]]}
1 {"answer":"fault","fault":3,"name":"Shape","place":["edits",0,1]}

session
{"version":1,"firms":[{"name":"S","kind":"laminar"},{"name":"B","kind":"laminar"}],"trades":[{"name":"a","seller":"S","buyer":"B"},{"name":"b","seller":"S","buyer":"B"}],"edits":[["bar","a"],["bar","z"]]}
1 {"answer":"fault","fault":8,"name":"UnknownTrade","place":["edits",1,1]}

session
{"version":1,"firms":[{"name":"S","kind":"laminar"},{"name":"B","kind":"laminar"}],"trades":[{"name":"a","seller":"S","buyer":"B"},{"name":"b","seller":"S","buyer":"B"}],"edits":[["admit","*"],["bar","**"]]}
1 {"answer":"fault","fault":8,"name":"UnknownTrade","place":["edits",1,1]}

session
{"version":1,"firms":[{"name":"S","kind":"laminar"},{"name":"B","kind":"laminar"}],"trades":[{"name":"a","seller":"S","buyer":"B"},{"name":"b","seller":"S","buyer":"B"}],"edits":[["leave","S"],["join","a"]]}
1 {"answer":"fault","fault":6,"name":"UnknownFirm","place":["edits",1,1]}

session
{"version":1,"firms":[{"name":"S","kind":"laminar"},{"name":"B","kind":"laminar"}],"trades":[{"name":"a","seller":"S","buyer":"B"},{"name":"b","seller":"S","buyer":"B"}],"edits":[["leave","*"]]}
1 {"answer":"fault","fault":6,"name":"UnknownFirm","place":["edits",0,1]}

session
{"version":1,"firms":[{"name":"S","kind":"laminar"},{"name":"B","kind":"laminar"}],"trades":[{"name":"a","seller":"S","buyer":"B"},{"name":"b","seller":"S","buyer":"B"}],"edits":[["join",["S"]]]}
1 {"answer":"fault","fault":3,"name":"Shape","place":["edits",0,1]}

solve
{"version":1,"firms":[{"name":"S","kind":"laminar"},{"name":"B","kind":"dealer","costs":[]}],"trades":[{"name":"a","seller":"S","buyer":"B"},{"name":"b","seller":"S","buyer":"B"},{"name":"c","seller":"B","buyer":"S"}]}
1 {"answer":"fault","fault":3,"name":"Shape","place":["firms",1]}

solve
{"version":1,"firms":[{"name":"S","kind":"laminar"},{"name":"B","kind":"dealer","pairs":null}],"trades":[{"name":"a","seller":"S","buyer":"B"},{"name":"b","seller":"S","buyer":"B"},{"name":"c","seller":"B","buyer":"S"}]}
1 {"answer":"fault","fault":3,"name":"Shape","place":["firms",1,"pairs"]}

solve
{"version":1,"firms":[{"name":"S","kind":"laminar"},{"name":"B","kind":"dealer","pairs":[["a","c"]]}],"trades":[{"name":"a","seller":"S","buyer":"B"},{"name":"b","seller":"S","buyer":"B"},{"name":"c","seller":"B","buyer":"S"}]}
1 {"answer":"fault","fault":3,"name":"Shape","place":["firms",1,"pairs",0]}

solve
{"version":1,"firms":[{"name":"S","kind":"laminar"},{"name":"B","kind":"dealer","pairs":[["z","c","x"]]}],"trades":[{"name":"a","seller":"S","buyer":"B"},{"name":"b","seller":"S","buyer":"B"},{"name":"c","seller":"B","buyer":"S"}]}
1 {"answer":"fault","fault":8,"name":"UnknownTrade","place":["firms",1,"pairs",0,0]}

solve
{"version":1,"firms":[{"name":"S","kind":"laminar"},{"name":"B","kind":"dealer","pairs":[["c","a",1]]}],"trades":[{"name":"a","seller":"S","buyer":"B"},{"name":"b","seller":"S","buyer":"B"},{"name":"c","seller":"B","buyer":"S"}]}
1 {"answer":"fault","fault":11,"name":"NotOwnTrade","place":["firms",1,"pairs",0,0]}

solve
{"version":1,"firms":[{"name":"S","kind":"laminar"},{"name":"B","kind":"dealer","pairs":[["a","b","x"]]}],"trades":[{"name":"a","seller":"S","buyer":"B"},{"name":"b","seller":"S","buyer":"B"},{"name":"c","seller":"B","buyer":"S"}]}
1 {"answer":"fault","fault":11,"name":"NotOwnTrade","place":["firms",1,"pairs",0,1]}

solve
{"version":1,"firms":[{"name":"S","kind":"laminar"},{"name":"B","kind":"dealer","pairs":[["a","c",1.5]]}],"trades":[{"name":"a","seller":"S","buyer":"B"},{"name":"b","seller":"S","buyer":"B"},{"name":"c","seller":"B","buyer":"S"}]}
1 {"answer":"fault","fault":3,"name":"Shape","place":["firms",1,"pairs",0,2]}

solve
{"version":1,"firms":[{"name":"S","kind":"laminar"},{"name":"B","kind":"dealer","pairs":[["a","c",1000000001]]}],"trades":[{"name":"a","seller":"S","buyer":"B"},{"name":"b","seller":"S","buyer":"B"},{"name":"c","seller":"B","buyer":"S"}]}
1 {"answer":"fault","fault":10,"name":"AmountRange","place":["firms",1,"pairs",0,2]}

solve
{"version":1,"firms":[{"name":"S","kind":"laminar"},{"name":"B","kind":"dealer","pairs":[["a","c",1],["b","c",2],["a","c",3]]}],"trades":[{"name":"a","seller":"S","buyer":"B"},{"name":"b","seller":"S","buyer":"B"},{"name":"c","seller":"B","buyer":"S"}]}
1 {"answer":"fault","fault":20,"name":"SamePair","place":["firms",1,"pairs",2]}"#;
