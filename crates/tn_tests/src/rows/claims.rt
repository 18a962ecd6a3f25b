//! Outcomes, and claims that are valid, that aren't, and that have faults.

pub(crate) const CLAIMS: &str = r#"judge
{"version":1,"firms":[{"name":"S","kind":"table","rows":[[["a"],-5]]},{"name":"B","kind":"table","rows":[[["a"],5]]}],"trades":[{"name":"a","seller":"S","buyer":"B"}],"outcome":{"over":1,"contracts":[]}}
0 {"answer":"completes","over":1,"prices":[["a",5]]}

judge
{"version":1,"firms":[{"name":"S","kind":"table","rows":[[["a"],-3]]},{"name":"B","kind":"table","rows":[[["a"],5]]}],"trades":[{"name":"a","seller":"S","buyer":"B"}],"outcome":{"over":1,"contracts":[["a",2]]}}
6 {"answer":"drops","firm":"S","gain":1,"keeps":[],"over":1}

judge
{"version":1,"firms":[{"name":"S","kind":"table","rows":[[["a"],-3]]},{"name":"B","kind":"table","rows":[[["a"],5]]}],"trades":[{"name":"a","seller":"S","buyer":"B"}],"outcome":{"over":2,"contracts":[["a",9]]}}
0 {"answer":"completes","over":2,"prices":[["a",9]]}

judge
{"version":1,"firms":[{"name":"S","kind":"table","rows":[]},{"name":"B","kind":"table","rows":[[["a"],5]]}],"trades":[{"name":"a","seller":"S","buyer":"B"}],"outcome":{"over":1,"contracts":[["a",3]]}}
6 {"answer":"drops","firm":"S","gain":null,"keeps":[],"over":1}

judge
{"version":1,"firms":[{"name":"S","kind":"table","rows":[[["a"],-3]]},{"name":"B","kind":"table","rows":[[["a"],5]]}],"trades":[{"name":"a","seller":"S","buyer":"B"}],"outcome":{"over":1,"contracts":[["a",4],["a",5]]}}
1 {"answer":"fault","fault":17,"name":"SameTrade","place":["outcome","contracts",1,0]}

judge
{"version":1,"firms":[{"name":"S","kind":"table","rows":[[["a"],-3]]},{"name":"B","kind":"table","rows":[[["a"],5]]}],"trades":[{"name":"a","seller":"S","buyer":"B"}],"outcome":{"over":0,"contracts":[]}}
1 {"answer":"fault","fault":19,"name":"BadOver","place":["outcome","over"]}

judge
{"version":1,"firms":[{"name":"S","kind":"table","rows":[[["a"],-3]]},{"name":"B","kind":"table","rows":[[["a"],5]]}],"trades":[{"name":"a","seller":"S","buyer":"B"}],"outcome":{"over":101,"contracts":[]}}
1 {"answer":"fault","fault":19,"name":"BadOver","place":["outcome","over"]}

judge
{"version":1,"firms":[{"name":"S","kind":"laminar","amounts":[["a",-1],["b",-1]]},{"name":"B","kind":"table","rows":[[["a"],0],[["b"],0],[["a","b"],10]]}],"trades":[{"name":"a","seller":"S","buyer":"B"},{"name":"b","seller":"S","buyer":"B"}]}
1 {"answer":"fault","at":"a","fault":16,"name":"ExchangeFails","place":["firms",1],"x":["a","b"],"y":[]}

judge
{"version":1,"firms":[{"name":"S","kind":"table","rows":[[["a"],-3]]},{"name":"B","kind":"table","rows":[[["a"],5]]}],"trades":[{"name":"a","seller":"S","buyer":"B"}]}
1 {"answer":"fault","fault":3,"name":"Shape","place":["outcome"]}

replay
{"version":1,"firms":[{"name":"S","kind":"table","rows":[[["a"],-3]]},{"name":"B","kind":"table","rows":[[["a"],5]]}],"trades":[{"name":"a","seller":"S","buyer":"B"}],"outcome":{"over":1,"contracts":[]},"claim":{"answer":"blocks","contracts":[["a",9]],"over":3}}
6 {"answer":"invalid","firm":"S","reason":"choice","trade":"a"}

replay
{"version":1,"firms":[{"name":"S","kind":"table","rows":[[["a"],-3]]},{"name":"B","kind":"table","rows":[[["a"],5]]}],"trades":[{"name":"a","seller":"S","buyer":"B"}],"outcome":{"over":1,"contracts":[]},"claim":{"answer":"blocks","contracts":[["a",12]],"over":3}}
0 {"answer":"valid"}

replay
{"version":1,"firms":[{"name":"S","kind":"table","rows":[[["a"],-3]]},{"name":"B","kind":"table","rows":[[["a"],5]]}],"trades":[{"name":"a","seller":"S","buyer":"B"}],"outcome":{"over":1,"contracts":[["a",5]]},"claim":{"answer":"blocks","contracts":[["a",4]],"over":1}}
6 {"answer":"invalid","firm":"S","reason":"choice","trade":"a"}

replay
{"version":1,"firms":[{"name":"S","kind":"table","rows":[[["a"],-3]]},{"name":"B","kind":"table","rows":[[["a"],5]]}],"trades":[{"name":"a","seller":"S","buyer":"B"}],"outcome":{"over":1,"contracts":[["a",5]]},"claim":{"answer":"blocks","contracts":[["a",5]],"over":1}}
6 {"answer":"invalid","reason":"signed","trade":"a"}

replay
{"version":3,"firms":[{"name":"S","kind":"table","rows":[[["a"],-3]]},{"name":"B","kind":"table","rows":[[["a"],5]]}],"trades":[{"name":"a","seller":"S","buyer":"B"}],"outcome":{"over":1,"contracts":[]},"claim":{"answer":"blocks","contracts":[["a",3000001]],"over":1000000}}
0 {"answer":"valid"}

replay
{"version":2,"firms":[{"name":"S","kind":"table","rows":[[["a"],-3]]},{"name":"B","kind":"table","rows":[[["a"],5]]}],"trades":[{"name":"a","seller":"S","buyer":"B"}],"outcome":{"over":1,"contracts":[]},"claim":{"answer":"blocks","contracts":[["a",3000001]],"over":1000000}}
1 {"answer":"fault","fault":19,"name":"BadOver","place":["claim","over"]}

replay
{"version":1,"firms":[{"name":"S","kind":"table","rows":[[["a"],-3]]},{"name":"B","kind":"table","rows":[[["a"],5]]}],"trades":[{"name":"a","seller":"S","buyer":"B"}],"arrangement":{"on":[]},"claim":{"answer":"cycle","cost":-2,"nodes":[null,"a"]}}
0 {"answer":"valid"}

replay
{"version":1,"firms":[{"name":"S","kind":"table","rows":[[["a"],-3]]},{"name":"B","kind":"table","rows":[[["a"],5]]}],"trades":[{"name":"a","seller":"S","buyer":"B"}],"arrangement":{"on":[]},"claim":{"answer":"cycle","cost":-3,"nodes":[null,"a"]}}
6 {"answer":"invalid","cost":-2,"reason":"cost"}

replay
{"version":1,"firms":[{"name":"S","kind":"table","rows":[]},{"name":"B","kind":"table","rows":[[["a"],5]]}],"trades":[{"name":"a","seller":"S","buyer":"B"}],"claim":{"answer":"solved","on":[],"prices":[],"surplus":0}}
1 {"answer":"fault","fault":18,"name":"PriceMissing","place":["claim","prices","a"]}

replay
{"version":1,"firms":[{"name":"S","kind":"laminar","amounts":[["a",-1],["b",-1]]},{"name":"B","kind":"table","rows":[[["a"],0],[["b"],0],[["a","b"],10]]}],"trades":[{"name":"a","seller":"S","buyer":"B"},{"name":"b","seller":"S","buyer":"B"}],"claim":{"answer":"accepted"}}
6 {"answer":"invalid","at":"a","firm":"B","reason":"exchange","x":["a","b"],"y":[]}

replay
{"version":1,"firms":[{"name":"S","kind":"laminar","amounts":[["a",-1],["b",-1]]},{"name":"B","kind":"table","rows":[[["a"],0],[["b"],0],[["a","b"],10]]}],"trades":[{"name":"a","seller":"S","buyer":"B"},{"name":"b","seller":"S","buyer":"B"}],"claim":{"answer":"exchange_fails","at":"a","firm":"B","x":["a","b"],"y":[]}}
0 {"answer":"valid"}

replay
{"version":1,"firms":[{"name":"S","kind":"table","rows":[[["a"],-3]]},{"name":"B","kind":"table","rows":[[["a"],5]]}],"trades":[{"name":"a","seller":"S","buyer":"B"}],"outcome":{"over":2,"contracts":[["a",9]]},"claim":{"answer":"completes","over":2,"prices":[["a",8]]}}
6 {"answer":"invalid","reason":"price","trade":"a"}

replay
{"version":1,"firms":[{"name":"S","kind":"table","rows":[[["a"],-1]]},{"name":"M","kind":"table","rows":[[[],0],[["a","b"],5]]},{"name":"B","kind":"table","rows":[[["b"],6]]}],"trades":[{"name":"a","seller":"S","buyer":"M"},{"name":"b","seller":"M","buyer":"B"}],"arrangement":{"on":[],"prices":[["a",0],["b",6]]},"claim":{"answer":"equilibrium","surplus":0}}
6 {"answer":"invalid","bundle":["a","b"],"firm":"M","reason":"better"}

replay
{"version":1,"firms":[{"name":"S","kind":"table","rows":[[["a"],-3]]},{"name":"B","kind":"table","rows":[[["a"],5]]}],"trades":[{"name":"a","seller":"S","buyer":"B"}],"claim":{"answer":"drill"}}
1 {"answer":"fault","fault":3,"name":"Shape","place":["claim","answer"]}

replay
{"version":1,"firms":[{"name":"S","kind":"table","rows":[[["a"],-3]]},{"name":"B","kind":"table","rows":[[["a"],5]]}],"trades":[{"name":"a","seller":"S","buyer":"B"}],"arrangement":{"on":["a"],"prices":[["a",4]]},"claim":{"answer":"equilibrium","surplus":2}}
0 {"answer":"valid"}

replay
{"version":1,"firms":[{"name":"S","kind":"table","rows":[[["a"],-3]]},{"name":"B","kind":"table","rows":[[["a"],5]]}],"trades":[{"name":"a","seller":"S","buyer":"B"}],"arrangement":{"on":["a"],"prices":[["a",6]]},"claim":{"answer":"better","bundle":[],"firm":"B","gain":1}}
0 {"answer":"valid"}

replay
{"version":1,"firms":[{"name":"S","kind":"table","rows":[[["a"],-5]]},{"name":"B","kind":"table","rows":[[["a"],5]]}],"trades":[{"name":"a","seller":"S","buyer":"B"}],"outcome":{"over":1,"contracts":[]},"claim":{"answer":"completes","over":1,"prices":[["a",5]]}}
0 {"answer":"valid"}

replay
{"version":1,"firms":[{"name":"S","kind":"table","rows":[[["a"],-3]]},{"name":"B","kind":"table","rows":[[["a"],5]]}],"trades":[{"name":"a","seller":"S","buyer":"B"}],"outcome":{"over":1,"contracts":[["a",2]]},"claim":{"answer":"drops","firm":"S","gain":1,"keeps":[],"over":1}}
0 {"answer":"valid"}

replay
{"version":1,"firms":[{"name":"S","kind":"table","rows":[[["a"],-3]]},{"name":"B","kind":"table","rows":[[["a"],5]]}],"trades":[{"name":"a","seller":"S","buyer":"B"}],"outcome":{"over":1,"contracts":[["a",2]]},"claim":{"answer":"drops","firm":"S","gain":2,"keeps":[],"over":1}}
6 {"answer":"invalid","firm":"S","gain":1,"reason":"gain"}

replay
{"version":1,"firms":[{"name":"S","kind":"table","rows":[[["a"],-3]]},{"name":"B","kind":"table","rows":[[["a"],5]]}],"trades":[{"name":"a","seller":"S","buyer":"B"}],"outcome":{"over":1,"contracts":[["a",2]]},"claim":{"answer":"drops","firm":"S","gain":1,"keeps":[],"over":2}}
6 {"answer":"invalid","over":1,"reason":"over"}

replay
{"version":1,"firms":[{"name":"S","kind":"laminar","amounts":[["a",-1],["b",-1]]},{"name":"B","kind":"table","rows":[[["a"],0],[["b"],0],[["a","b"],10]]}],"trades":[{"name":"a","seller":"S","buyer":"B"},{"name":"b","seller":"S","buyer":"B"}],"claim":{"answer":"exchange_fails","at":"b","firm":"B","x":[],"y":[]}}
6 {"answer":"invalid","reason":"holds"}

replay
{"version":1,"firms":[{"name":"S","kind":"table","rows":[[["a"],-3]]},{"name":"B","kind":"table","rows":[[["a"],5]]}],"trades":[{"name":"a","seller":"S","buyer":"B"}],"arrangement":{"on":[]},"claim":{"answer":"impossible","firm":"S"}}
6 {"answer":"invalid","firm":"S","reason":"possible"}

replay
{"version":1,"firms":[{"name":"S","kind":"table","rows":[[["a"],-3]]},{"name":"B","kind":"table","rows":[[["a"],5]]}],"trades":[{"name":"a","seller":"S","buyer":"B"}],"arrangement":{"on":["a"],"prices":[["a",4]]},"claim":{"answer":"equilibrium","surplus":3}}
6 {"answer":"invalid","reason":"surplus","surplus":2}

judge
{"version":1,"firms":[{"name":"S","kind":"laminar"},{"name":"B","kind":"laminar"}],"trades":[{"name":"a","seller":"S","buyer":"B"},{"name":"b","seller":"S","buyer":"B"}],"outcome":{"over":100,"contracts":[["a",100000000000],["b",-100000000000]]}}
6 {"answer":"drops","firm":"S","gain":100000000000,"keeps":["a"],"over":100}

judge
{"version":1,"firms":[{"name":"S","kind":"laminar"},{"name":"B","kind":"laminar"}],"trades":[{"name":"a","seller":"S","buyer":"B"},{"name":"b","seller":"S","buyer":"B"}],"outcome":{"over":100,"contracts":[["b",-100000000000],["a",100000000000]]}}
6 {"answer":"drops","firm":"S","gain":100000000000,"keeps":["a"],"over":100}

replay
{"version":1,"firms":[{"name":"S","kind":"table","rows":[[["a"],-3]]},{"name":"B","kind":"table","rows":[[["a"],5]]}],"trades":[{"name":"a","seller":"S","buyer":"B"}],"arrangement":{"on":["a"],"prices":[["a",4]]},"claim":{"answer":"firms"}}
1 {"answer":"fault","fault":3,"name":"Shape","place":["claim","answer"]}

replay
{"version":1,"firms":[{"name":"Seller1","kind":"laminar","sets":[{"trades":["pair1","any1"],"from":-1,"values":[0,0]}]},{"name":"Seller2","kind":"laminar","sets":[{"trades":["pair2","any2"],"from":-1,"values":[0,0]}]},{"name":"Pair","kind":"table","rows":[[["pair1"],0],[["pair2"],0],[["pair1","pair2"],10]]},{"name":"Any","kind":"laminar","amounts":[["any1",6],["any2",6]],"sets":[{"trades":["any1","any2"],"from":0,"values":[0,0]}]}],"trades":[{"name":"pair1","seller":"Seller1","buyer":"Pair"},{"name":"pair2","seller":"Seller2","buyer":"Pair"},{"name":"any1","seller":"Seller1","buyer":"Any"},{"name":"any2","seller":"Seller2","buyer":"Any"}],"claim":{"answer":"none","over":2,"plan":[["Seller1",["pair1"],1],["Seller1",["any1"],1],["Seller2",["pair2"],1],["Seller2",["any2"],1],["Pair",["pair1","pair2"],1],["Any",["any1"],1],["Any",["any2"],1]]}}
0 {"answer":"valid"}

replay
{"version":1,"firms":[{"name":"Seller1","kind":"laminar","sets":[{"trades":["pair1","any1"],"from":-1,"values":[0,0]}]},{"name":"Seller2","kind":"laminar","sets":[{"trades":["pair2","any2"],"from":-1,"values":[0,0]}]},{"name":"Pair","kind":"table","rows":[[["pair1"],0],[["pair2"],0],[["pair1","pair2"],10]]},{"name":"Any","kind":"laminar","amounts":[["any1",6],["any2",6]],"sets":[{"trades":["any1","any2"],"from":0,"values":[0,0]}]}],"trades":[{"name":"pair1","seller":"Seller1","buyer":"Pair"},{"name":"pair2","seller":"Seller2","buyer":"Pair"},{"name":"any1","seller":"Seller1","buyer":"Any"},{"name":"any2","seller":"Seller2","buyer":"Any"}],"claim":{"answer":"none","over":2,"plan":[["Any",["any1"],2],["Any",["any2"],1]]}}
6 {"answer":"invalid","firm":"Any","reason":"shares"}

replay
{"version":1,"firms":[{"name":"Seller1","kind":"laminar","sets":[{"trades":["pair1","any1"],"from":-1,"values":[0,0]}]},{"name":"Seller2","kind":"laminar","sets":[{"trades":["pair2","any2"],"from":-1,"values":[0,0]}]},{"name":"Pair","kind":"table","rows":[[["pair1"],0],[["pair2"],0],[["pair1","pair2"],10]]},{"name":"Any","kind":"laminar","amounts":[["any1",6],["any2",6]],"sets":[{"trades":["any1","any2"],"from":0,"values":[0,0]}]}],"trades":[{"name":"pair1","seller":"Seller1","buyer":"Pair"},{"name":"pair2","seller":"Seller2","buyer":"Pair"},{"name":"any1","seller":"Seller1","buyer":"Any"},{"name":"any2","seller":"Seller2","buyer":"Any"}],"claim":{"answer":"none","over":2,"plan":[["Seller1",["pair1","any1"],1]]}}
6 {"answer":"invalid","firm":"Seller1","reason":"impossible"}

replay
{"version":1,"firms":[{"name":"Seller1","kind":"laminar","sets":[{"trades":["pair1","any1"],"from":-1,"values":[0,0]}]},{"name":"Seller2","kind":"laminar","sets":[{"trades":["pair2","any2"],"from":-1,"values":[0,0]}]},{"name":"Pair","kind":"table","rows":[[["pair1"],0],[["pair2"],0],[["pair1","pair2"],10]]},{"name":"Any","kind":"laminar","amounts":[["any1",6],["any2",6]],"sets":[{"trades":["any1","any2"],"from":0,"values":[0,0]}]}],"trades":[{"name":"pair1","seller":"Seller1","buyer":"Pair"},{"name":"pair2","seller":"Seller2","buyer":"Pair"},{"name":"any1","seller":"Seller1","buyer":"Any"},{"name":"any2","seller":"Seller2","buyer":"Any"}],"claim":{"answer":"none","over":2,"plan":[["Seller1",["pair1"],1],["Pair",["pair1","pair2"],1]]}}
6 {"answer":"invalid","reason":"balance","trade":"pair2"}

replay
{"version":1,"firms":[{"name":"Seller1","kind":"laminar","sets":[{"trades":["pair1","any1"],"from":-1,"values":[0,0]}]},{"name":"Seller2","kind":"laminar","sets":[{"trades":["pair2","any2"],"from":-1,"values":[0,0]}]},{"name":"Pair","kind":"table","rows":[[["pair1"],0],[["pair2"],0],[["pair1","pair2"],10]]},{"name":"Any","kind":"laminar","amounts":[["any1",6],["any2",6]],"sets":[{"trades":["any1","any2"],"from":0,"values":[0,0]}]}],"trades":[{"name":"pair1","seller":"Seller1","buyer":"Pair"},{"name":"pair2","seller":"Seller2","buyer":"Pair"},{"name":"any1","seller":"Seller1","buyer":"Any"},{"name":"any2","seller":"Seller2","buyer":"Any"}],"claim":{"answer":"none","over":1,"plan":[["Seller1",["pair1"],1],["Seller2",["pair2"],1],["Pair",["pair1","pair2"],1]]}}
6 {"answer":"invalid","on":["pair1","pair2"],"reason":"whole","surplus":10}

replay
{"version":1,"firms":[{"name":"Seller1","kind":"laminar","sets":[{"trades":["pair1","any1"],"from":-1,"values":[0,0]}]},{"name":"Seller2","kind":"laminar","sets":[{"trades":["pair2","any2"],"from":-1,"values":[0,0]}]},{"name":"Pair","kind":"table","rows":[[["pair1"],0],[["pair2"],0],[["pair1","pair2"],10]]},{"name":"Any","kind":"laminar","amounts":[["any1",6],["any2",6]],"sets":[{"trades":["any1","any2"],"from":0,"values":[0,0]}]}],"trades":[{"name":"pair1","seller":"Seller1","buyer":"Pair"},{"name":"pair2","seller":"Seller2","buyer":"Pair"},{"name":"any1","seller":"Seller1","buyer":"Any"},{"name":"any2","seller":"Seller2","buyer":"Any"}],"claim":{"answer":"none","over":2,"plan":[["Any",["any1"],0]]}}
1 {"answer":"fault","fault":10,"name":"AmountRange","place":["claim","plan",0,2]}"#;
