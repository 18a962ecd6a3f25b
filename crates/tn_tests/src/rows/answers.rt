//! Verdicts on arrangements and tables, equilibria and prices, ranges, states and drills, words that are no command,
//! and documents with faults beside them.

pub(crate) const ANSWERS: &str = r#"test
{"version":1,"firms":[{"name":"S","kind":"table","rows":[[["a"],-1]]},{"name":"M","kind":"table","rows":[[[],0],[["a","b"],5]]},{"name":"B","kind":"table","rows":[[["b"],6]]}],"trades":[{"name":"a","seller":"S","buyer":"M"},{"name":"b","seller":"M","buyer":"B"}]}
0 {"answer":"accepted"}

check
{"version":1,"firms":[{"name":"S","kind":"table","rows":[[["a"],-1]]},{"name":"M","kind":"table","rows":[[[],0],[["a","b"],5]]},{"name":"B","kind":"table","rows":[[["b"],6]]}],"trades":[{"name":"a","seller":"S","buyer":"M"},{"name":"b","seller":"M","buyer":"B"}],"arrangement":{"on":[],"prices":[["a",0],["b",6]]}}
6 {"answer":"better","bundle":["a","b"],"firm":"M","gain":11}

test
{"version":1,"firms":[{"name":"S","kind":"table","rows":[[["a"],-1],[["b"],-1],[["a","b"],-2]]},{"name":"B","kind":"table","rows":[[["a"],0],[["b"],0],[["a","b"],10]]}],"trades":[{"name":"a","seller":"S","buyer":"B"},{"name":"b","seller":"S","buyer":"B"}]}
6 {"answer":"exchange_fails","at":"a","firm":"B","x":["a","b"],"y":[]}

check
{"version":1,"firms":[{"name":"S","kind":"table","rows":[[["a"],-1],[["b"],-1],[["a","b"],-2]]},{"name":"B","kind":"table","rows":[[["a"],0],[["b"],0],[["a","b"],10]]}],"trades":[{"name":"a","seller":"S","buyer":"B"},{"name":"b","seller":"S","buyer":"B"}],"arrangement":{"on":[],"prices":[["a",0],["b",0]]}}
1 {"answer":"fault","at":"a","fault":16,"name":"ExchangeFails","place":["firms",1],"x":["a","b"],"y":[]}

test
{"version":1,"firms":[{"name":"S","kind":"table","rows":[[["a1"],0],[["a2"],0],[["a1","a2"],0]]},{"name":"M","kind":"table","rows":[[["a1","b1"],5],[["a2","b2"],5]]},{"name":"B","kind":"table","rows":[[["b1"],0],[["b2"],0],[["b1","b2"],0]]}],"trades":[{"name":"a1","seller":"S","buyer":"M"},{"name":"a2","seller":"S","buyer":"M"},{"name":"b1","seller":"M","buyer":"B"},{"name":"b2","seller":"M","buyer":"B"}]}
6 {"answer":"exchange_fails","at":"a2","firm":"M","x":["a2","b2"],"y":["a1","b1"]}

check
{"version":2,"firms":[{"name":"S","kind":"table","rows":[[["a"],-3]]},{"name":"B","kind":"table","rows":[[["a"],5]]}],"trades":[{"name":"a","seller":"S","buyer":"B"}],"arrangement":{"on":["a"],"prices":[["a",4]]}}
0 {"answer":"equilibrium","surplus":2}

test
{"version":1,"firms":[{"name":"S","kind":"laminar","amounts":[["a",-1],["b",-1]]},{"name":"B","kind":"table","rows":[[["a"],0],[["b"],0],[["a","b"],10]]}],"trades":[{"name":"a","seller":"S","buyer":"B"},{"name":"b","seller":"S","buyer":"B"}]}
6 {"answer":"exchange_fails","at":"a","firm":"B","x":["a","b"],"y":[]}

check
{"version":1,"firms":[{"name":"S","kind":"laminar","amounts":[["a",-1],["b",-1]]},{"name":"B","kind":"table","rows":[[["a"],0],[["b"],0],[["a","b"],10]]}],"trades":[{"name":"a","seller":"S","buyer":"B"},{"name":"b","seller":"S","buyer":"B"}],"arrangement":{"on":[],"prices":[["a",0],["b",0]]}}
1 {"answer":"fault","at":"a","fault":16,"name":"ExchangeFails","place":["firms",1],"x":["a","b"],"y":[]}

test
{"version":1,"firms":[{"name":"S","kind":"laminar"},{"name":"M","kind":"table","rows":[[["a1","b1"],5],[["a2","b2"],5]]},{"name":"B","kind":"laminar"}],"trades":[{"name":"a1","seller":"S","buyer":"M"},{"name":"a2","seller":"S","buyer":"M"},{"name":"b1","seller":"M","buyer":"B"},{"name":"b2","seller":"M","buyer":"B"}]}
6 {"answer":"exchange_fails","at":"a2","firm":"M","x":["a2","b2"],"y":["a1","b1"]}

check
{"version":1,"firms":[{"name":"S","kind":"laminar"},{"name":"B","kind":"laminar","sets":[{"trades":["a","b"],"from":0,"values":[0,5,7]},{"trades":["a","b","c"],"from":0,"values":[0,5,7]}]}],"trades":[{"name":"a","seller":"S","buyer":"B"},{"name":"b","seller":"S","buyer":"B"},{"name":"c","seller":"S","buyer":"B"}],"arrangement":{"on":["a","b","c"],"prices":[["a",0],["b",0],["c",0]]}}
6 {"answer":"impossible","firm":"B"}

check
{"version":1,"firms":[{"name":"O1","kind":"laminar","amounts":[["o1d",-4],["o1b1",-4],["o1b2",-4]],"sets":[{"trades":["o1d","o1b1","o1b2"],"from":-1,"values":[0,0]}]},{"name":"O2","kind":"laminar","amounts":[["o2d",-6],["o2b1",-6],["o2b2",-6],["o2b3",-6]],"sets":[{"trades":["o2d","o2b1","o2b2","o2b3"],"from":-1,"values":[0,0]}]},{"name":"D","kind":"middleman","costs":[["o1d",1],["o2d",2]]},{"name":"B1","kind":"laminar","amounts":[["db1",12],["o1b1",9],["o2b1",9]],"sets":[{"trades":["db1","o1b1","o2b1"],"from":0,"values":[0,0]}]},{"name":"B2","kind":"laminar","amounts":[["db2",9],["o1b2",8],["o2b2",9]],"sets":[{"trades":["db2","o1b2","o2b2"],"from":0,"values":[0,0]}]},{"name":"B3","kind":"laminar","amounts":[["db3",11],["o2b3",8]],"sets":[{"trades":["db3","o2b3"],"from":0,"values":[0,0]}]}],"trades":[{"name":"o1d","seller":"O1","buyer":"D"},{"name":"o2d","seller":"O2","buyer":"D"},{"name":"db1","seller":"D","buyer":"B1"},{"name":"db2","seller":"D","buyer":"B2"},{"name":"db3","seller":"D","buyer":"B3"},{"name":"o1b1","seller":"O1","buyer":"B1"},{"name":"o1b2","seller":"O1","buyer":"B2"},{"name":"o2b1","seller":"O2","buyer":"B1"},{"name":"o2b2","seller":"O2","buyer":"B2"},{"name":"o2b3","seller":"O2","buyer":"B3"}],"arrangement":{"on":["o1d","db1","o2b2"],"prices":[["o1d",8],["o2d",8],["db1",11],["db2",11],["db3",11],["o1b1",8],["o1b2",8],["o2b1",8],["o2b2",8],["o2b3",8]]}}
0 {"answer":"equilibrium","surplus":10}

check
{"version":1,"firms":[{"name":"S","kind":"table","rows":[[["a"],-2]]},{"name":"M1","kind":"middleman","costs":[["a",1]]},{"name":"M2","kind":"middleman","costs":[["b",1]]},{"name":"B","kind":"table","rows":[[["c"],10]]}],"trades":[{"name":"a","seller":"S","buyer":"M1"},{"name":"b","seller":"M1","buyer":"M2"},{"name":"c","seller":"M2","buyer":"B"}],"arrangement":{"on":["a","b","c"],"prices":[["a",3],["b",5],["c",8]]}}
0 {"answer":"equilibrium","surplus":6}

check
{"version":1,"firms":[{"name":"S","kind":"table","rows":[[["a"],-1]]},{"name":"M","kind":"middleman","costs":[["a",2]],"gains":[["b",3]],"keep":8},{"name":"B","kind":"table","rows":[[["b"],1]]}],"trades":[{"name":"a","seller":"S","buyer":"M"},{"name":"b","seller":"M","buyer":"B"}],"arrangement":{"on":["a"],"prices":[["a",6],["b",5]]}}
0 {"answer":"equilibrium","surplus":5}

check
{"version":1,"firms":[{"name":"S","kind":"table","rows":[[["a"],-1]]},{"name":"M","kind":"middleman","costs":[["a",2]],"gains":[["b",3]],"keep":8},{"name":"B","kind":"table","rows":[[["b"],1]]}],"trades":[{"name":"a","seller":"S","buyer":"M"},{"name":"b","seller":"M","buyer":"B"}],"arrangement":{"on":["a"],"prices":[["a",6],["b",6]]}}
6 {"answer":"better","bundle":["a","b"],"firm":"M","gain":1}

check
{"version":1,"firms":[{"name":"S","kind":"table","rows":[[["a"],-1]]},{"name":"M","kind":"middleman","costs":[["a",2]],"gains":[["b",3]],"keep":8},{"name":"B","kind":"table","rows":[[["b"],1]]}],"trades":[{"name":"a","seller":"S","buyer":"M"},{"name":"b","seller":"M","buyer":"B"}],"arrangement":{"on":["b"],"prices":[["a",1],["b",1]]}}
6 {"answer":"impossible","firm":"M"}

solve
{"version":1,"firms":[{"name":"S","kind":"table","rows":[[["a"],-3]]},{"name":"B","kind":"table","rows":[[["a"],5]]}],"trades":[{"name":"a","seller":"S","buyer":"B"}]}
0 {"answer":"solved","on":["a"],"prices":[["a",3~5]],"surplus":2}

solve
{"version":2,"firms":[{"name":"S","kind":"table","rows":[[["a"],-3]]},{"name":"B","kind":"table","rows":[[["a"],5]]}],"trades":[{"name":"a","seller":"S","buyer":"B"}]}
0 {"answer":"solved","on":["a"],"prices":[["a",3~5]],"surplus":2}

solve
{"version":3,"firms":[{"name":"S","kind":"table","rows":[[["a"],-3]]},{"name":"B","kind":"table","rows":[[["a"],5]]}],"trades":[{"name":"a","seller":"S","buyer":"B"}]}
0 {"answer":"solved","on":["a"],"prices":[["a",3~5]],"surplus":2}

solve
{"version":1,"firms":[{"name":"S","kind":"table","rows":[[[],7]]},{"name":"B","kind":"table","rows":[]}],"trades":[]}
0 {"answer":"solved","on":[],"prices":[],"surplus":7}

solve
{"version":1,"firms":[{"name":"S","kind":"laminar","amounts":[["a",-1],["b",-1]]},{"name":"B","kind":"table","rows":[[["a"],0],[["b"],0],[["a","b"],10]]}],"trades":[{"name":"a","seller":"S","buyer":"B"},{"name":"b","seller":"S","buyer":"B"}]}
1 {"answer":"fault","at":"a","fault":16,"name":"ExchangeFails","place":["firms",1],"x":["a","b"],"y":[]}

solve
{"version":1,"firms":[{"name":"S","kind":"laminar","amounts":[["a",-1],["b",-1]]},{"name":"B","kind":"table","rows":[[["a"],0],[["b"],0],[["a","b"],10]]}],"trades":[{"name":"a","seller":"S","buyer":"B"},{"name":"b b","seller":"S","buyer":"B"}]}
1 {"answer":"fault","fault":4,"name":"BadName","place":["trades",1,"name"]}

solve
{"version":1,"firms":[{"name":"F1","kind":"table","rows":[[["r1","r3"],1]]},{"name":"F2","kind":"table","rows":[[["r1","r2"],1]]},{"name":"F3","kind":"table","rows":[[["r2","r3"],1]]}],"trades":[{"name":"r1","seller":"F1","buyer":"F2"},{"name":"r2","seller":"F2","buyer":"F3"},{"name":"r3","seller":"F3","buyer":"F1"}]}
0 {"answer":"solved","on":["r1","r2","r3"],"prices":[["r1",..]],"surplus":3}

solve
{"version":1,"firms":[{"name":"S","kind":"table","rows":[]},{"name":"B","kind":"table","rows":[[["a"],5]]}],"trades":[{"name":"a","seller":"S","buyer":"B"}]}
0 {"answer":"solved","on":[],"prices":[["a",5~100000000000000]],"surplus":0}

solve
{"version":1,"firms":[{"name":"O1","kind":"laminar","amounts":[["o1d",-4],["o1b1",-4],["o1b2",-4]],"sets":[{"trades":["o1d","o1b1","o1b2"],"from":-1,"values":[0,0]}]},{"name":"O2","kind":"laminar","amounts":[["o2d",-6],["o2b1",-6],["o2b2",-6],["o2b3",-6]],"sets":[{"trades":["o2d","o2b1","o2b2","o2b3"],"from":-1,"values":[0,0]}]},{"name":"D","kind":"middleman","costs":[["o1d",1],["o2d",2]]},{"name":"B1","kind":"laminar","amounts":[["db1",12],["o1b1",9],["o2b1",9]],"sets":[{"trades":["db1","o1b1","o2b1"],"from":0,"values":[0,0]}]},{"name":"B2","kind":"laminar","amounts":[["db2",9],["o1b2",8],["o2b2",9]],"sets":[{"trades":["db2","o1b2","o2b2"],"from":0,"values":[0,0]}]},{"name":"B3","kind":"laminar","amounts":[["db3",11],["o2b3",8]],"sets":[{"trades":["db3","o2b3"],"from":0,"values":[0,0]}]}],"trades":[{"name":"o1d","seller":"O1","buyer":"D"},{"name":"o2d","seller":"O2","buyer":"D"},{"name":"db1","seller":"D","buyer":"B1"},{"name":"db2","seller":"D","buyer":"B2"},{"name":"db3","seller":"D","buyer":"B3"},{"name":"o1b1","seller":"O1","buyer":"B1"},{"name":"o1b2","seller":"O1","buyer":"B2"},{"name":"o2b1","seller":"O2","buyer":"B1"},{"name":"o2b2","seller":"O2","buyer":"B2"},{"name":"o2b3","seller":"O2","buyer":"B3"}]}
0 {"answer":"solved","on":["o1d","db1","o2b2"],"prices":[["o1d",8~10],["o2d",7~9],["db1",11~12],["db2",8~12],["db3",11~12],["o1b1",8~10],["o1b2",7~10],["o2b1",8~9],["o2b2",8~9],["o2b3",8~9]],"surplus":10}

solve
{"version":1,"firms":[{"name":"S","kind":"laminar"},{"name":"B","kind":"laminar","sets":[{"trades":["a","b"],"from":0,"values":[0,3,7]}]}],"trades":[{"name":"a","seller":"S","buyer":"B"},{"name":"b","seller":"S","buyer":"B"}]}
1 {"answer":"fault","fault":15,"name":"NotConcave","place":["firms",1,"sets",0,"values",1]}

solve
{"version":1,"firms":[{"name":"S","kind":"laminar"},{"name":"B","kind":"laminar","sets":[{"trades":["a","b"],"from":0,"values":[0,5,7]},{"trades":["b","c"],"from":0,"values":[0,5,7]}]}],"trades":[{"name":"a","seller":"S","buyer":"B"},{"name":"b","seller":"S","buyer":"B"},{"name":"c","seller":"S","buyer":"B"}]}
1 {"answer":"fault","fault":14,"name":"NotLaminar","place":["firms",1,"sets",1]}

solve
{"version":1,"firms":[{"name":"S","kind":"table","rows":[[["a"],-1000000000]]},{"name":"B","kind":"table","rows":[[["a"],1000000000]]}],"trades":[{"name":"a","seller":"S","buyer":"B"}]}
0 {"answer":"solved","on":[..],"prices":[["a",1000000000]],"surplus":0}

solve
{"version":2,"firms":[{"name":"S","kind":"table","rows":[[["a"],-1000000000]]},{"name":"B","kind":"table","rows":[[["a"],1000000000]]}],"trades":[{"name":"a","seller":"S","buyer":"B"}]}
0 {"answer":"solved","on":[..],"prices":[["a",1000000000]],"surplus":0}

solve
{"version":3,"firms":[{"name":"S","kind":"table","rows":[[["a"],-10000000]]},{"name":"B","kind":"table","rows":[[["a"],10000000]]}],"trades":[{"name":"a","seller":"S","buyer":"B"}]}
0 {"answer":"solved","on":[..],"prices":[["a",10000000]],"surplus":0}

solve
{"version":3,"firms":[{"name":"S","kind":"table","rows":[[["a"],-3]]},{"name":"B","kind":"laminar","amounts":[["a",5]],"sets":[{"trades":["a"],"from":-60,"values":[0,0,0,0,0,0,0,0,0,0,0,0,0,0,0,0,0,0,0,0,0,0,0,0,0,0,0,0,0,0,0,0,0,0,0,0,0,0,0,0,0,0,0,0,0,0,0,0,0,0,0,0,0,0,0,0,0,0,0,0,0,-1]}]}],"trades":[{"name":"a","seller":"S","buyer":"B"}]}
0 {"answer":"solved","on":["a"],"prices":[["a",3~4]],"surplus":1}

solve
{"version":1,"firms":[{"name":"S","kind":"table","rows":[[["a"],-1]]},{"name":"M","kind":"middleman","costs":[["a",2]],"gains":[["b",3]],"keep":8},{"name":"B","kind":"table","rows":[[["b"],1]]}],"trades":[{"name":"a","seller":"S","buyer":"M"},{"name":"b","seller":"M","buyer":"B"}]}
0 {"answer":"solved","on":["a"],"prices":[["a",1~6],["b",1~5]],"surplus":5}

solve
{"version":5,"firms":[{"name":"S","kind":"table","rows":[[["a"],-3]]},{"name":"B","kind":"table","rows":[[["a"],5]]}],"trades":[{"name":"a","seller":"S","buyer":"B"}]}
1 {"answer":"fault","fault":3,"name":"Shape","place":["version"]}

support
{"version":1,"firms":[{"name":"S","kind":"table","rows":[[["a"],-3]]},{"name":"B","kind":"table","rows":[[["a"],5]]}],"trades":[{"name":"a","seller":"S","buyer":"B"}],"arrangement":{"on":[]}}
6 {"answer":"cycle","cost":-2,"nodes":[null,"a"]}

support
{"version":1,"firms":[{"name":"S","kind":"table","rows":[[["a"],-3]]},{"name":"B","kind":"table","rows":[[["a"],5]]}],"trades":[{"name":"a","seller":"S","buyer":"B"}],"arrangement":{"on":["a"]}}
0 {"answer":"prices","prices":[["a",3~5]]}

support
{"version":1,"firms":[{"name":"S","kind":"table","rows":[]},{"name":"B","kind":"table","rows":[[["a"],5]]}],"trades":[{"name":"a","seller":"S","buyer":"B"}],"arrangement":{"on":["a"]}}
6 {"answer":"impossible","firm":"S"}

support
{"version":1,"firms":[{"name":"F1","kind":"table","rows":[[["r1","r3"],1]]},{"name":"F2","kind":"table","rows":[[["r1","r2"],1]]},{"name":"F3","kind":"table","rows":[[["r2","r3"],1]]}],"trades":[{"name":"r1","seller":"F1","buyer":"F2"},{"name":"r2","seller":"F2","buyer":"F3"},{"name":"r3","seller":"F3","buyer":"F1"}],"arrangement":{"on":[]}}
6 {"answer":"cycle","cost":-3,"nodes":["r1","r2","r3"]}

support
{"version":1,"firms":[{"name":"F1","kind":"table","rows":[[["r1","r3"],1]]},{"name":"F2","kind":"table","rows":[[["r1","r2"],1]]},{"name":"F3","kind":"table","rows":[[["r2","r3"],1]]}],"trades":[{"name":"r1","seller":"F1","buyer":"F2"},{"name":"r2","seller":"F2","buyer":"F3"},{"name":"r3","seller":"F3","buyer":"F1"}],"arrangement":{"on":["r1","r2","r3"]}}
0 {"answer":"prices","prices":[["r1",..]]}

support
{"version":1,"firms":[{"name":"F1","kind":"table","rows":[[["r1","r3"],1]]},{"name":"F2","kind":"table","rows":[[["r1","r2"],1]]},{"name":"F3","kind":"table","rows":[[["r2","r3"],1]]}],"trades":[{"name":"r1","seller":"F1","buyer":"F2"},{"name":"r2","seller":"F2","buyer":"F3"},{"name":"r3","seller":"F3","buyer":"F1"}],"arrangement":{"on":["r1","r2"]}}
6 {"answer":"impossible","firm":"F1"}

support
{"version":1,"firms":[{"name":"S","kind":"table","rows":[[["a"],-3]]},{"name":"B","kind":"table","rows":[[["a"],5]]}],"trades":[{"name":"a","seller":"S","buyer":"B"}]}
1 {"answer":"fault","fault":3,"name":"Shape","place":["arrangement"]}

support
{"version":1,"firms":[{"name":"S","kind":"table","rows":[[["a"],-3]]},{"name":"B","kind":"table","rows":[[["a"],5]]}],"trades":[{"name":"a","seller":"S","buyer":"B"}],"arrangement":{"on":["b"]}}
1 {"answer":"fault","fault":8,"name":"UnknownTrade","place":["arrangement","on",0]}

range
{"version":1,"firms":[{"name":"S","kind":"table","rows":[[["a"],-3]]},{"name":"B","kind":"table","rows":[[["a"],5]]}],"trades":[{"name":"a","seller":"S","buyer":"B"}]}
0 {"answer":"ranges","on":["a"],"ranges":[{"high":5,"high_path":[null,"a"],"low":3,"low_path":["a",null],"trade":"a"}]}

range
{"version":1,"firms":[{"name":"S","kind":"table","rows":[]},{"name":"B","kind":"table","rows":[[["a"],5]]}],"trades":[{"name":"a","seller":"S","buyer":"B"}]}
0 {"answer":"ranges","on":[],"ranges":[{"high":null,"high_path":[],"low":5,"low_path":["a",null],"trade":"a"}]}

range
{"version":1,"firms":[{"name":"F1","kind":"table","rows":[[["r1","r3"],1]]},{"name":"F2","kind":"table","rows":[[["r1","r2"],1]]},{"name":"F3","kind":"table","rows":[[["r2","r3"],1]]}],"trades":[{"name":"r1","seller":"F1","buyer":"F2"},{"name":"r2","seller":"F2","buyer":"F3"},{"name":"r3","seller":"F3","buyer":"F1"}]}
0 {"answer":"ranges","on":["r1","r2","r3"],"ranges":[{"high":null,"high_path":[],"low":null,"low_path":[],"trade":"r1"},{"high":null,"high_path":[],"low":null,"low_path":[],"trade":"r2"},{"high":null,"high_path":[],"low":null,"low_path":[],"trade":"r3"}]}

range
{"version":1,"firms":[{"name":"S","kind":"table","rows":[[["a"],-5]]},{"name":"B","kind":"table","rows":[[["a"],5]]}],"trades":[{"name":"a","seller":"S","buyer":"B"}]}
0 {"answer":"ranges","on":[..],"ranges":[{"high":5,"high_path":[null,"a"],"low":5,"low_path":["a",null],"trade":"a"}]}

session
{"version":1,"firms":[{"name":"S","kind":"table","rows":[[["a"],-3]]},{"name":"B","kind":"table","rows":[[["a"],5]]}],"trades":[{"name":"a","seller":"S","buyer":"B"}],"edits":[["admit","a"],["bar","a"],["bar","a"]]}
0 {"answer":"session","edits":[{"on":["a"],"prices":[["a",3~5]],"surplus":2},{"on":[],"prices":[],"surplus":0},{"on":[],"prices":[],"surplus":0}]}

session
{"version":1,"firms":[{"name":"O1","kind":"laminar","amounts":[["o1d",-4],["o1b1",-4],["o1b2",-4]],"sets":[{"trades":["o1d","o1b1","o1b2"],"from":-1,"values":[0,0]}]},{"name":"O2","kind":"laminar","amounts":[["o2d",-6],["o2b1",-6],["o2b2",-6],["o2b3",-6]],"sets":[{"trades":["o2d","o2b1","o2b2","o2b3"],"from":-1,"values":[0,0]}]},{"name":"D","kind":"middleman","costs":[["o1d",1],["o2d",2]]},{"name":"B1","kind":"laminar","amounts":[["db1",12],["o1b1",9],["o2b1",9]],"sets":[{"trades":["db1","o1b1","o2b1"],"from":0,"values":[0,0]}]},{"name":"B2","kind":"laminar","amounts":[["db2",9],["o1b2",8],["o2b2",9]],"sets":[{"trades":["db2","o1b2","o2b2"],"from":0,"values":[0,0]}]},{"name":"B3","kind":"laminar","amounts":[["db3",11],["o2b3",8]],"sets":[{"trades":["db3","o2b3"],"from":0,"values":[0,0]}]}],"trades":[{"name":"o1d","seller":"O1","buyer":"D"},{"name":"o2d","seller":"O2","buyer":"D"},{"name":"db1","seller":"D","buyer":"B1"},{"name":"db2","seller":"D","buyer":"B2"},{"name":"db3","seller":"D","buyer":"B3"},{"name":"o1b1","seller":"O1","buyer":"B1"},{"name":"o1b2","seller":"O1","buyer":"B2"},{"name":"o2b1","seller":"O2","buyer":"B1"},{"name":"o2b2","seller":"O2","buyer":"B2"},{"name":"o2b3","seller":"O2","buyer":"B3"}],"edits":[["admit","o1d"],["admit","o2d"],["admit","db1"],["admit","db2"],["admit","db3"],["admit","o1b1"],["admit","o1b2"],["admit","o2b1"],["admit","o2b2"],["admit","o2b3"],["bar","db1"],["bar","o2b1"]]}
0 {"answer":"session","edits":[{"on":[],"prices":[["o1d",-100000000000000~4]],"surplus":0},{"on":[],"prices":[["o1d",-100000000000000~4],["o2d",-100000000000000~6]],"surplus":0},{"on":["o1d","db1"],"prices":[["o1d",4~7],["o2d",3~6],["db1",5~12]],"surplus":7},{"on":["o1d","db1"],"prices":[["o1d",4~7],["o2d",3~6],["db1",9~12],["db2",9~12]],"surplus":7},{"on":["o1d","db1"],"prices":[["o1d",4~7],["o2d",3~6],["db1",11~12],["db2",9~12],["db3",11~12]],"surplus":7},{"on":["o2d","db3","o1b1"],"prices":[["o1d",7~8],["o2d",6~7],["db1",10~11],["db2",9~11],["db3",10~11],["o1b1",7~8]],"surplus":8},{"on":["o2d",..,..],"prices":[["o1d",7~8],["o2d",6~7],["db1",11~11],["db2",9~11],["db3",11~11],["o1b1",8~8],["o1b2",8~8]],"surplus":8},{"on":["o1d","db3","o2b1"],"prices":[["o1d",8~9],["o2d",7~8],["db1",10~11],["db2",9~11],["db3",10~11],["o1b1",7~9],["o1b2",8~9],["o2b1",7~8]],"surplus":9},{"on":["o1d","db1","o2b2"],"prices":[["o1d",8~10],["o2d",7~9],["db1",11~12],["db2",8~12],["db3",11~12],["o1b1",8~10],["o1b2",7~10],["o2b1",8~9],["o2b2",8~9]],"surplus":10},{"on":["o1d","db1","o2b2"],"prices":[["o1d",8~10],["o2d",7~9],["db1",11~12],["db2",8~12],["db3",11~12],["o1b1",8~10],["o1b2",7~10],["o2b1",8~9],["o2b2",8~9],["o2b3",8~9]],"surplus":10},{"on":["o1d","db3",..],"prices":[["o1d",9~10],["o2d",8~9],["db2",9~11],["db3",10~11],["o1b1",9~10],["o1b2",8~10],["o2b1",9~9],["o2b2",9~9],["o2b3",7~9]],"surplus":9},{"on":["o1d","db3","o2b2"],"prices":[["o1d",9~10],["o2d",8~9],["db2",8~11],["db3",10~11],["o1b1",9~10],["o1b2",7~10],["o2b2",8~9],["o2b3",7~9]],"surplus":9}]}

session
{"version":1,"firms":[{"name":"S","kind":"table","rows":[[["a"],-3],[["b"],-3]]},{"name":"B1","kind":"table","rows":[[["a"],5]]},{"name":"B2","kind":"table","rows":[[[],1],[["b"],8]]}],"trades":[{"name":"a","seller":"S","buyer":"B1"},{"name":"b","seller":"S","buyer":"B2"}],"edits":[["admit","*"],["leave","B2"],["join","B2"],["leave","S"],["leave","B1"],["join","S"],["bar","b"],["join","B1"],["bar","*"]]}
0 {"answer":"session","edits":[{"on":["b"],"prices":[["a",5~7],["b",5~7]],"surplus":5},{"on":["a"],"prices":[["a",3~5]],"surplus":3},{"on":["b"],"prices":[["a",5~7],["b",5~7]],"surplus":5},{"on":[],"prices":[],"surplus":1},{"on":[],"prices":[],"surplus":1},{"on":["b"],"prices":[["b",3~7]],"surplus":5},{"on":[],"prices":[],"surplus":1},{"on":["a"],"prices":[["a",3~5]],"surplus":3},{"on":[],"prices":[],"surplus":1}]}

session
{"version":1,"firms":[{"name":"S","kind":"table","rows":[[["a"],-3]]},{"name":"B","kind":"table","rows":[[["a"],5]]}],"trades":[{"name":"a","seller":"S","buyer":"B"}],"edits":[]}
0 {"answer":"session","edits":[]}

session
{"version":1,"firms":[{"name":"S","kind":"table","rows":[[["a"],-3]]},{"name":"B","kind":"table","rows":[[["a"],5]]}],"trades":[{"name":"a","seller":"S","buyer":"B"}],"edits":[["drop","a"]]}
1 {"answer":"fault","fault":3,"name":"Shape","place":["edits",0,0]}

solve --csv
{"version":1,"firms":[{"name":"S","kind":"laminar","amounts":[["a",-1],["b",-1]]},{"name":"B","kind":"table","rows":[[["a"],0],[["b"],0],[["a","b"],10]]}],"trades":[{"name":"a","seller":"S","buyer":"B"},{"name":"b","seller":"S","buyer":"B"}]}
1 {"answer":"fault","at":"a","fault":16,"name":"ExchangeFails","place":["firms",1],"x":["a","b"],"y":[]}

drill 3 1
-
0 {"answer":"drill","firms":16,"size":3,"start":1,"surplus":84}

drill 1 0
-
0 {"answer":"drill","firms":16,"size":1,"start":0,"surplus":0}

drill 64 2147483647
-
0 {"answer":"drill","firms":16,"size":64,"start":2147483647,"surplus":..}

drill 0 1
{"version":1,"firms":[{"name":"S","kind":"table","rows":[[["a"],-3]]},{"name":"B","kind":"table","rows":[[["a"],5]]}],"trades":[{"name":"a","seller":"S","buyer":"B"}]}
2 {"answer":"usage"}

drill 03 1
{"version":1,"firms":[{"name":"S","kind":"table","rows":[[["a"],-3]]},{"name":"B","kind":"table","rows":[[["a"],5]]}],"trades":[{"name":"a","seller":"S","buyer":"B"}]}
2 {"answer":"usage"}

drill 65 1
{"version":1,"firms":[{"name":"S","kind":"table","rows":[[["a"],-3]]},{"name":"B","kind":"table","rows":[[["a"],5]]}],"trades":[{"name":"a","seller":"S","buyer":"B"}]}
2 {"answer":"usage"}

drill 1 2147483648
{"version":1,"firms":[{"name":"S","kind":"table","rows":[[["a"],-3]]},{"name":"B","kind":"table","rows":[[["a"],5]]}],"trades":[{"name":"a","seller":"S","buyer":"B"}]}
2 {"answer":"usage"}

drill +1 1
{"version":1,"firms":[{"name":"S","kind":"table","rows":[[["a"],-3]]},{"name":"B","kind":"table","rows":[[["a"],5]]}],"trades":[{"name":"a","seller":"S","buyer":"B"}]}
2 {"answer":"usage"}

drill 1
{"version":1,"firms":[{"name":"S","kind":"table","rows":[[["a"],-3]]},{"name":"B","kind":"table","rows":[[["a"],5]]}],"trades":[{"name":"a","seller":"S","buyer":"B"}]}
2 {"answer":"usage"}

solve --rows
{"version":1,"firms":[{"name":"S","kind":"table","rows":[[["a"],-3]]},{"name":"B","kind":"table","rows":[[["a"],5]]}],"trades":[{"name":"a","seller":"S","buyer":"B"}]}
2 {"answer":"usage"}

check
{"version":1,"firms":[{"name":"O1","kind":"table","rows":[[["a"],-4]]},{"name":"O2","kind":"table","rows":[[["b"],-6]]},{"name":"D","kind":"dealer","pairs":[["a","x",1],["a","y",3],["b","x",2],["b","y",1]]},{"name":"X","kind":"table","rows":[[["x"],12]]},{"name":"Y","kind":"table","rows":[[["y"],9]]}],"trades":[{"name":"a","seller":"O1","buyer":"D"},{"name":"b","seller":"O2","buyer":"D"},{"name":"x","seller":"D","buyer":"X"},{"name":"y","seller":"D","buyer":"Y"}],"arrangement":{"on":["a","b","x","y"],"prices":[["a",5],["b",7],["x",11],["y",8]]}}
0 {"answer":"equilibrium","surplus":9}

solve
{"version":1,"firms":[{"name":"S","kind":"laminar","amounts":[["p0",-20],["p1",-25],["p2",-30],["p3",-22],["p4",-27],["p5",-32],["p6",-24],["p7",-29],["p8",-21],["p9",-26],["p10",-31],["p11",-23]]},{"name":"D","kind":"dealer","pairs":[["p0","s0",0],["p0","s1",29],["p0","s2",34],["p0","s3",15],["p0","s4",13],["p0","s5",28],["p0","s6",19],["p0","s7",27],["p0","s8",11],["p0","s9",12],["p0","s10",30],["p0","s11",24],["p1","s0",24],["p1","s1",23],["p1","s2",39],["p1","s3",31],["p1","s4",40],["p1","s5",25],["p1","s6",27],["p1","s7",5],["p1","s8",0],["p1","s9",12],["p1","s10",0],["p1","s11",5],["p2","s0",0],["p2","s1",10],["p2","s2",37],["p2","s3",40],["p2","s4",19],["p2","s5",15],["p2","s6",28],["p2","s7",17],["p2","s8",23],["p2","s9",5],["p2","s10",4],["p2","s11",20],["p3","s0",10],["p3","s1",31],["p3","s2",28],["p3","s3",1],["p3","s4",32],["p3","s5",39],["p3","s6",22],["p3","s7",22],["p3","s8",39],["p3","s9",32],["p3","s10",1],["p3","s11",28],["p4","s0",13],["p4","s1",4],["p4","s2",12],["p4","s3",37],["p4","s4",38],["p4","s5",15],["p4","s6",9],["p4","s7",20],["p4","s8",7],["p4","s9",11],["p4","s10",32],["p4","s11",29],["p5","s0",9],["p5","s1",11],["p5","s2",30],["p5","s3",25],["p5","s4",37],["p5","s5",25],["p5","s6",30],["p5","s7",11],["p5","s8",9],["p5","s9",24],["p5","s10",15],["p5","s11",23],["p6","s0",39],["p6","s1",11],["p6","s2",0],["p6","s3",6],["p6","s4",29],["p6","s5",28],["p6","s6",3],["p6","s7",36],["p6","s8",4],["p6","s9",30],["p6","s10",32],["p6","s11",10],["p7","s0",21],["p7","s1",4],["p7","s2",4],["p7","s3",21],["p7","s4",14],["p7","s5",24],["p7","s6",10],["p7","s7",13],["p7","s8",33],["p7","s9",29],["p7","s10",1],["p7","s11",31],["p8","s0",37],["p8","s1",31],["p8","s2",1],["p8","s3",29],["p8","s4",33],["p8","s5",13],["p8","s6",10],["p8","s7",24],["p8","s8",14],["p8","s9",21],["p8","s10",4],["p8","s11",4],["p9","s0",5],["p9","s1",10],["p9","s2",32],["p9","s3",30],["p9","s4",4],["p9","s5",36],["p9","s6",3],["p9","s7",28],["p9","s8",29],["p9","s9",6],["p9","s10",0],["p9","s11",11],["p10","s0",7],["p10","s1",23],["p10","s2",15],["p10","s3",24],["p10","s4",9],["p10","s5",11],["p10","s6",30],["p10","s7",25],["p10","s8",37],["p10","s9",25],["p10","s10",30],["p10","s11",11],["p11","s0",2],["p11","s1",29],["p11","s2",32],["p11","s3",11],["p11","s4",7],["p11","s5",20],["p11","s6",9],["p11","s7",15],["p11","s8",38],["p11","s9",37],["p11","s10",12],["p11","s11",4]]},{"name":"B","kind":"laminar","amounts":[["s0",30],["s1",37],["s2",44],["s3",34],["s4",41],["s5",31],["s6",38],["s7",45],["s8",35],["s9",42],["s10",32],["s11",39]]}],"trades":[{"name":"p0","seller":"S","buyer":"D"},{"name":"p1","seller":"S","buyer":"D"},{"name":"p2","seller":"S","buyer":"D"},{"name":"p3","seller":"S","buyer":"D"},{"name":"p4","seller":"S","buyer":"D"},{"name":"p5","seller":"S","buyer":"D"},{"name":"p6","seller":"S","buyer":"D"},{"name":"p7","seller":"S","buyer":"D"},{"name":"p8","seller":"S","buyer":"D"},{"name":"p9","seller":"S","buyer":"D"},{"name":"p10","seller":"S","buyer":"D"},{"name":"p11","seller":"S","buyer":"D"},{"name":"s0","seller":"D","buyer":"B"},{"name":"s1","seller":"D","buyer":"B"},{"name":"s2","seller":"D","buyer":"B"},{"name":"s3","seller":"D","buyer":"B"},{"name":"s4","seller":"D","buyer":"B"},{"name":"s5","seller":"D","buyer":"B"},{"name":"s6","seller":"D","buyer":"B"},{"name":"s7","seller":"D","buyer":"B"},{"name":"s8","seller":"D","buyer":"B"},{"name":"s9","seller":"D","buyer":"B"},{"name":"s10","seller":"D","buyer":"B"},{"name":"s11","seller":"D","buyer":"B"}]}
0 {"answer":"solved","on":["p0","p1","p2","p3","p4","p6","p7","p8","p9","p11","s0","s1","s2","s3","s4","s6","s7","s9","s10","s11"],"prices":[..],"surplus":107}

solve
{"version":1,"firms":[{"name":"O1","kind":"table","rows":[[["a"],-4]]},{"name":"O2","kind":"table","rows":[[["b"],-6]]},{"name":"D","kind":"dealer","pairs":[["a","x",1],["a","y",3],["b","x",2],["b","y",1]]},{"name":"X","kind":"table","rows":[[["x"],12]]},{"name":"Y","kind":"table","rows":[[["y"],9]]}],"trades":[{"name":"a","seller":"O1","buyer":"D"},{"name":"b","seller":"O2","buyer":"D"},{"name":"x","seller":"D","buyer":"X"},{"name":"y","seller":"D","buyer":"Y"}]}
0 {"answer":"solved","on":["a","b","x","y"],"prices":[["a",..]],"surplus":9}

test
{"version":1,"firms":[{"name":"O1","kind":"table","rows":[[["a"],-4]]},{"name":"O2","kind":"table","rows":[[["b"],-6]]},{"name":"D","kind":"dealer","pairs":[["a","x",1],["a","y",3],["b","x",2],["b","y",1]]},{"name":"X","kind":"table","rows":[[["x"],12]]},{"name":"Y","kind":"table","rows":[[["y"],9]]}],"trades":[{"name":"a","seller":"O1","buyer":"D"},{"name":"b","seller":"O2","buyer":"D"},{"name":"x","seller":"D","buyer":"X"},{"name":"y","seller":"D","buyer":"Y"}]}
0 {"answer":"accepted"}

solve
{"version":1,"firms":[{"name":"O1","kind":"table","rows":[[["a"],-4]]},{"name":"O2","kind":"table","rows":[[["b"],-6]]},{"name":"D","kind":"dealer","pairs":[["a","x",1],["a","y",3],["b","x",2],["b","y",1],["a","x",7]]},{"name":"X","kind":"table","rows":[[["x"],12]]},{"name":"Y","kind":"table","rows":[[["y"],9]]}],"trades":[{"name":"a","seller":"O1","buyer":"D"},{"name":"b","seller":"O2","buyer":"D"},{"name":"x","seller":"D","buyer":"X"},{"name":"y","seller":"D","buyer":"Y"}]}
1 {"answer":"fault","fault":20,"name":"SamePair","place":["firms",2,"pairs",4]}

test
{"version":1,"firms":[{"name":"S","kind":"laminar"},{"name":"B","kind":"laminar"}],"trades":[{"name":"o1-d_2.X","seller":"S","buyer":"B"}]}
0 {"answer":"accepted"}

test
{"version":1,"firms":[{"name":"S","kind":"laminar"},{"name":"B","kind":"laminar"}],"trades":[{"name":"0123456789abcdefghijklmnopqrstuv","seller":"S","buyer":"B"}]}
0 {"answer":"accepted"}

test
{"version":1,"firms":[{"name":"S","kind":"laminar"},{"name":"B","kind":"laminar"}],"trades":[{"name":"a","seller":"S","buyer":"B"},{"name":"b","seller":"S","buyer":"B"},{"name":"c","seller":"B","buyer":"S"}]}
0 {"answer":"accepted"}

test
{"version":1,"firms":[{"name":"S","kind":"laminar"},{"name":"B","kind":"laminar","amounts":[],"sets":[],"note":[]}],"trades":[{"name":"a","seller":"S","buyer":"B"},{"name":"b","seller":"S","buyer":"B"},{"name":"c","seller":"B","buyer":"S"}]}
0 {"answer":"accepted"}

test
{"version":1,"firms":[{"name":"S","kind":"laminar"},{"name":"B","kind":"laminar","sets":[{"trades":["a","c","b"],"from":-32,"values":[0,0,0,0,0,0,0,0,0,0,0,0,0,0,0,0,0,0,0,0,0,0,0,0,0,0,0,0,0,0,0,0,0]}]}],"trades":[{"name":"a","seller":"S","buyer":"B"},{"name":"b","seller":"S","buyer":"B"},{"name":"c","seller":"B","buyer":"S"}]}
0 {"answer":"accepted"}

test
{"version":1,"firms":[{"name":"S","kind":"laminar"},{"name":"B","kind":"laminar","sets":[{"trades":[],"from":0,"values":[0]},{"trades":["a","b"],"from":0,"values":[0,2,3]},{"trades":["b","a"],"from":0,"values":[0]},{"trades":["b"],"from":0,"values":[0,1]}]}],"trades":[{"name":"a","seller":"S","buyer":"B"},{"name":"b","seller":"S","buyer":"B"},{"name":"c","seller":"B","buyer":"S"}]}
0 {"answer":"accepted"}

test
{"version":1,"firms":[{"name":"S","kind":"laminar"},{"name":"B","kind":"middleman"}],"trades":[{"name":"a","seller":"S","buyer":"B"},{"name":"b","seller":"S","buyer":"B"},{"name":"c","seller":"B","buyer":"S"}]}
0 {"answer":"accepted"}

test
{"version":1,"firms":[{"name":"S","kind":"laminar"},{"name":"B","kind":"middleman","costs":[["a",1],["b",2]],"gains":[["c",3]],"keep":null}],"trades":[{"name":"a","seller":"S","buyer":"B"},{"name":"b","seller":"S","buyer":"B"},{"name":"c","seller":"B","buyer":"S"}]}
0 {"answer":"accepted"}

test
{"version":1,"firms":[{"name":"S","kind":"laminar"},{"name":"B","kind":"middleman","costs":[],"keep":1000000000,"note":1}],"trades":[{"name":"a","seller":"S","buyer":"B"},{"name":"b","seller":"S","buyer":"B"},{"name":"c","seller":"B","buyer":"S"}]}
0 {"answer":"accepted"}

test
{"version":1,"firms":[{"name":"S","kind":"laminar"},{"name":"B","kind":"dealer"}],"trades":[{"name":"a","seller":"S","buyer":"B"},{"name":"b","seller":"S","buyer":"B"},{"name":"c","seller":"B","buyer":"S"}]}
0 {"answer":"accepted"}

test
{"version":1,"firms":[{"name":"S","kind":"laminar"},{"name":"B","kind":"dealer","pairs":[["b","c",-1000000000],["a","c",2]],"note":1}],"trades":[{"name":"a","seller":"S","buyer":"B"},{"name":"b","seller":"S","buyer":"B"},{"name":"c","seller":"B","buyer":"S"}]}
0 {"answer":"accepted"}

support
{"version":1,"firms":[{"name":"S","kind":"table","rows":[[["a"],-3]]},{"name":"B","kind":"table","rows":[[["a"],5]]}],"trades":[{"name":"a","seller":"S","buyer":"B"}],"arrangement":{"on":["a"],"prices":1}}
0 {"answer":"prices","prices":[["a",3~5]]}

support
{"version":1,"firms":[{"name":"S","kind":"table","rows":[[["a"],-3]]},{"name":"B","kind":"table","rows":[[["a"],5]]}],"trades":[{"name":"a","seller":"S","buyer":"B"}],"arrangement":{"on":["a"],"prices":[["z"]]}}
0 {"answer":"prices","prices":[["a",3~5]]}

support
{"version":1,"firms":[{"name":"S","kind":"table","rows":[[["a"],-3]]},{"name":"B","kind":"table","rows":[[["a"],5]]}],"trades":[{"name":"a","seller":"S","buyer":"B"}],"arrangement":{"on":["a","a"]}}
1 {"answer":"fault","fault":17,"name":"SameTrade","place":["arrangement","on",1]}

firms
{"version":1,"firms":[{"name":"O1","kind":"laminar","amounts":[["o1d",-4],["o1b1",-4],["o1b2",-4]],"sets":[{"trades":["o1d","o1b1","o1b2"],"from":-1,"values":[0,0]}]},{"name":"O2","kind":"laminar","amounts":[["o2d",-6],["o2b1",-6],["o2b2",-6],["o2b3",-6]],"sets":[{"trades":["o2d","o2b1","o2b2","o2b3"],"from":-1,"values":[0,0]}]},{"name":"D","kind":"middleman","costs":[["o1d",1],["o2d",2]]},{"name":"B1","kind":"laminar","amounts":[["db1",12],["o1b1",9],["o2b1",9]],"sets":[{"trades":["db1","o1b1","o2b1"],"from":0,"values":[0,0]}]},{"name":"B2","kind":"laminar","amounts":[["db2",9],["o1b2",8],["o2b2",9]],"sets":[{"trades":["db2","o1b2","o2b2"],"from":0,"values":[0,0]}]},{"name":"B3","kind":"laminar","amounts":[["db3",11],["o2b3",8]],"sets":[{"trades":["db3","o2b3"],"from":0,"values":[0,0]}]}],"trades":[{"name":"o1d","seller":"O1","buyer":"D"},{"name":"o2d","seller":"O2","buyer":"D"},{"name":"db1","seller":"D","buyer":"B1"},{"name":"db2","seller":"D","buyer":"B2"},{"name":"db3","seller":"D","buyer":"B3"},{"name":"o1b1","seller":"O1","buyer":"B1"},{"name":"o1b2","seller":"O1","buyer":"B2"},{"name":"o2b1","seller":"O2","buyer":"B1"},{"name":"o2b2","seller":"O2","buyer":"B2"},{"name":"o2b3","seller":"O2","buyer":"B3"}],"arrangement":{"on":["o1d","db1","o2b2"],"prices":[["o1d",8],["o2d",8],["db1",11],["db2",11],["db3",11],["o1b1",8],["o1b2",8],["o2b1",8],["o2b2",8],["o2b3",8]]}}
0 {"answer":"firms","content":6,"firms":[{"best":["o1d"],"best_utility":4,"firm":"O1","gain":0,"has":["o1d"],"utility":4,"worth":-4},{"best":["o2b2"],"best_utility":2,"firm":"O2","gain":0,"has":["o2b2"],"utility":2,"worth":-6},{"best":["o1d","db1"],"best_utility":2,"firm":"D","gain":0,"has":["o1d","db1"],"utility":2,"worth":-1},{"best":["db1"],"best_utility":1,"firm":"B1","gain":0,"has":["db1"],"utility":1,"worth":12},{"best":["o2b2"],"best_utility":1,"firm":"B2","gain":0,"has":["o2b2"],"utility":1,"worth":9},{"best":[],"best_utility":0,"firm":"B3","gain":0,"has":[],"utility":0,"worth":0}],"surplus":10}

firms
{"version":1,"firms":[{"name":"S","kind":"table","rows":[[["a"],-1],[["b"],-1],[["a","b"],-2]]},{"name":"B","kind":"table","rows":[[["a"],0],[["b"],0],[["a","b"],10]]}],"trades":[{"name":"a","seller":"S","buyer":"B"},{"name":"b","seller":"S","buyer":"B"}],"arrangement":{"on":[],"prices":[["a",0],["b",0]]}}
6 {"answer":"firms","content":1,"firms":[{"best":[],"best_utility":0,"firm":"S","gain":0,"has":[],"utility":0,"worth":0},{"best":["a","b"],"best_utility":10,"firm":"B","gain":10,"has":[],"utility":0,"worth":0}],"surplus":0}

firms
{"version":1,"firms":[{"name":"S","kind":"table","rows":[[["a"],-1],[["b"],-1],[["a","b"],-2]]},{"name":"B","kind":"table","rows":[[["a"],0],[["b"],0],[["a","b"],10]]}],"trades":[{"name":"a","seller":"S","buyer":"B"},{"name":"b","seller":"S","buyer":"B"}],"arrangement":{"on":["a","b"],"prices":[["a",4],["b",4]]}}
0 {"answer":"firms","content":2,"firms":[{"best":["a","b"],"best_utility":6,"firm":"S","gain":0,"has":["a","b"],"utility":6,"worth":-2},{"best":["a","b"],"best_utility":2,"firm":"B","gain":0,"has":["a","b"],"utility":2,"worth":10}],"surplus":8}

firms
{"version":1,"firms":[{"name":"S","kind":"table","rows":[[["a"],-1],[["b"],-1],[["a","b"],-2]]},{"name":"B","kind":"table","rows":[[["a"],0],[["b"],0],[["a","b"],10]]}],"trades":[{"name":"a","seller":"S","buyer":"B"},{"name":"b","seller":"S","buyer":"B"}],"arrangement":{"on":["a"],"prices":[["a",6],["b",6]]}}
6 {"answer":"firms","content":0,"firms":[{"best":["a","b"],"best_utility":10,"firm":"S","gain":5,"has":["a"],"utility":5,"worth":-1},{"best":[],"best_utility":0,"firm":"B","gain":6,"has":["a"],"utility":-6,"worth":0}],"surplus":-1}

firms
{"version":2,"firms":[{"name":"S","kind":"laminar"},{"name":"B","kind":"table","rows":[[["a","b","c"],10]]}],"trades":[{"name":"a","seller":"S","buyer":"B"},{"name":"b","seller":"S","buyer":"B"},{"name":"c","seller":"S","buyer":"B"}],"arrangement":{"on":[],"prices":[["a",1],["b",1],["c",1]]}}
6 {"answer":"firms","content":0,"firms":[{"best":["a","b","c"],"best_utility":3,"firm":"S","gain":3,"has":[],"utility":0,"worth":0},{"best":["a","b","c"],"best_utility":7,"firm":"B","gain":7,"has":[],"utility":0,"worth":0}],"surplus":0}

firms
{"version":1,"firms":[{"name":"S","kind":"table","rows":[]},{"name":"B","kind":"table","rows":[[["a"],5]]}],"trades":[{"name":"a","seller":"S","buyer":"B"}],"arrangement":{"on":["a"],"prices":[["a",3]]}}
6 {"answer":"firms","content":1,"firms":[{"best":[],"best_utility":0,"firm":"S","gain":null,"has":["a"],"utility":null,"worth":null},{"best":["a"],"best_utility":2,"firm":"B","gain":0,"has":["a"],"utility":2,"worth":5}],"surplus":null}

firms
{"version":1,"firms":[],"trades":[],"arrangement":{"on":[],"prices":[]}}
0 {"answer":"firms","content":0,"firms":[],"surplus":0}

firms
{"version":1,"firms":[{"name":"S","kind":"table","rows":[[["a"],-1],[["b"],-1],[["a","b"],-2]]},{"name":"B","kind":"table","rows":[[["a"],0],[["b"],0],[["a","b"],10]]}],"trades":[{"name":"a","seller":"S","buyer":"B"},{"name":"b","seller":"S","buyer":"B"}],"arrangement":{"on":[],"prices":[["a",0]]}}
1 {"answer":"fault","fault":18,"name":"PriceMissing","place":["arrangement","prices","b"]}"#;
