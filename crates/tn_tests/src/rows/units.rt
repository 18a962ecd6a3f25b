//! Documents whose trades have units: equilibria, verdicts, prices, ranges and states by counts, commands that answer
//! none, and faults.

pub(crate) const UNITS: &str = r#"solve
{"version":4,"firms":[{"name":"S","kind":"laminar","sets":[{"trades":["a"],"sold":[[120,-3],[80,-5]]}]},{"name":"B","kind":"laminar","sets":[{"trades":["a"],"bought":[[100,9],[100,4]]}]}],"trades":[{"name":"a","seller":"S","buyer":"B","units":200}]}
0 {"answer":"solved","on":[["a",120]],"prices":[["a",4]],"surplus":620}

test
{"version":4,"firms":[{"name":"S","kind":"laminar","sets":[{"trades":["a"],"sold":[[120,-3],[80,-5]]}]},{"name":"B","kind":"laminar","sets":[{"trades":["a"],"bought":[[100,9],[100,4]]}]}],"trades":[{"name":"a","seller":"S","buyer":"B","units":200}]}
0 {"answer":"accepted"}

solve
{"version":4,"firms":[{"name":"S","kind":"laminar","amounts":[["a",-3]]},{"name":"B","kind":"laminar","amounts":[["a",1]],"sets":[{"trades":["a"],"from":0,"values":[7,11]}]}],"trades":[{"name":"a","seller":"S","buyer":"B"}]}
0 {"answer":"solved","on":[["a",1]],"prices":[["a",3~5]],"surplus":9}

solve
{"version":4,"firms":[{"name":"S","kind":"laminar","amounts":[["a",-3]]},{"name":"B","kind":"laminar","amounts":[["a",2]]}],"trades":[{"name":"a","seller":"S","buyer":"B","units":5}]}
0 {"answer":"solved","on":[],"prices":[["a",2~3]],"surplus":0}

solve
{"version":4,"firms":[{"name":"Mill-A","kind":"laminar","sets":[{"trades":["a-n","a-s"],"sold":[[300,-40],[200,-55]]}]},{"name":"Mill-B","kind":"laminar","sets":[{"trades":["b-n","b-s"],"sold":[[250,-42],[250,-60]]}]},{"name":"Mill-C","kind":"laminar","amounts":[["c-s",-4]],"sets":[{"trades":["c-s"],"sold":[[400,-45]]}]},{"name":"North","kind":"laminar","amounts":[["n-x",-3],["n-y",-5]],"sets":[{"trades":["a-n","b-n","n-x","n-y"]},{"trades":["a-n","b-n"],"bought":[[400,-6],[200,-11]]}]},{"name":"South","kind":"laminar","amounts":[["s-y",-4],["s-z",-2]],"sets":[{"trades":["a-s","b-s","c-s","s-y","s-z"]},{"trades":["a-s","b-s","c-s"],"bought":[[700,-5]]}]},{"name":"X","kind":"laminar","sets":[{"trades":["n-x"],"bought":[[200,120],[150,90],[100,60]]}]},{"name":"Y","kind":"laminar","sets":[{"trades":["n-y","s-y"],"bought":[[150,110],[250,75]]}]},{"name":"Z","kind":"laminar","sets":[{"trades":["s-z"],"bought":[[300,95],[300,65]]}]}],"trades":[{"name":"a-n","seller":"Mill-A","buyer":"North","units":350},{"name":"a-s","seller":"Mill-A","buyer":"South","units":200},{"name":"b-n","seller":"Mill-B","buyer":"North","units":300},{"name":"b-s","seller":"Mill-B","buyer":"South","units":300},{"name":"c-s","seller":"Mill-C","buyer":"South","units":400},{"name":"n-x","seller":"North","buyer":"X","units":500},{"name":"n-y","seller":"North","buyer":"Y","units":250},{"name":"s-y","seller":"South","buyer":"Y","units":250},{"name":"s-z","seller":"South","buyer":"Z","units":600}]}
0 {"answer":"solved","on":[["a-n",300~350],["a-s",150~200],["b-n",150~200],["b-s",50~100],["c-s",400],["n-x",350],["n-y",150],["s-y",250],["s-z",400]],"prices":[["a-n",58],["a-s",58],["b-n",58],["b-s",58],["c-s",49~58],["n-x",72],["n-y",74],["s-y",67~74],["s-z",65]],"surplus":44300}

judge
{"version":4,"firms":[{"name":"S","kind":"laminar"}],"trades":[],"arrangement":{"on":[],"prices":[]}}
1 {"answer":"fault","fault":3,"name":"Shape","place":["version"]}

solve
{"version":4,"firms":[{"name":"S","kind":"laminar"},{"name":"B","kind":"laminar"}],"trades":[{"name":"a","seller":"S","buyer":"B","units":0}]}
1 {"answer":"fault","fault":10,"name":"AmountRange","place":["trades",0,"units"]}

solve
{"version":4,"firms":[{"name":"S","kind":"laminar","sets":[{"trades":["a"],"sold":[[300,-40],[200,-35]]}]},{"name":"B","kind":"laminar"}],"trades":[{"name":"a","seller":"S","buyer":"B","units":500}]}
1 {"answer":"fault","fault":15,"name":"NotConcave","place":["firms",0,"sets",0,"sold",1,1]}

solve
{"version":4,"firms":[{"name":"S","kind":"laminar","sets":[{"trades":["a"],"sold":[[3,-4]],"values":[0]}]},{"name":"B","kind":"laminar"}],"trades":[{"name":"a","seller":"S","buyer":"B","units":500}]}
1 {"answer":"fault","fault":3,"name":"Shape","place":["firms",0,"sets",0]}

test
{"version":4,"firms":[{"name":"S","kind":"table","rows":[]}],"trades":[]}
1 {"answer":"fault","fault":3,"name":"Shape","place":["firms",0,"kind"]}

solve
{"version":3,"firms":[{"name":"S","kind":"laminar"},{"name":"B","kind":"laminar"}],"trades":[{"name":"a","seller":"S","buyer":"B","units":2}]}
1 {"answer":"fault","fault":3,"name":"Shape","place":["trades",0]}

check
{"version":4,"firms":[{"name":"S","kind":"laminar","sets":[{"trades":["a"],"sold":[[120,-3],[80,-5]]}]},{"name":"B","kind":"laminar","sets":[{"trades":["a"],"bought":[[100,9],[100,4]]}]}],"trades":[{"name":"a","seller":"S","buyer":"B","units":200}],"arrangement":{"on":[["a",120]],"prices":[["a",4]]}}
0 {"answer":"equilibrium","surplus":620}

check
{"version":4,"firms":[{"name":"S","kind":"laminar","sets":[{"trades":["a"],"sold":[[120,-3],[80,-5]]}]},{"name":"B","kind":"laminar","sets":[{"trades":["a"],"bought":[[100,9],[100,4]]}]}],"trades":[{"name":"a","seller":"S","buyer":"B","units":200}],"arrangement":{"on":[["a",100]],"prices":[["a",4]]}}
6 {"answer":"better","bundle":[["a",120]],"firm":"S","gain":20}

check
{"version":4,"firms":[{"name":"Mill-A","kind":"laminar","sets":[{"trades":["a-n","a-s"],"sold":[[300,-40],[200,-55]]}]},{"name":"Mill-B","kind":"laminar","sets":[{"trades":["b-n","b-s"],"sold":[[250,-42],[250,-60]]}]},{"name":"Mill-C","kind":"laminar","amounts":[["c-s",-4]],"sets":[{"trades":["c-s"],"sold":[[400,-45]]}]},{"name":"North","kind":"laminar","amounts":[["n-x",-3],["n-y",-5]],"sets":[{"trades":["a-n","b-n","n-x","n-y"]},{"trades":["a-n","b-n"],"bought":[[400,-6],[200,-11]]}]},{"name":"South","kind":"laminar","amounts":[["s-y",-4],["s-z",-2]],"sets":[{"trades":["a-s","b-s","c-s","s-y","s-z"]},{"trades":["a-s","b-s","c-s"],"bought":[[700,-5]]}]},{"name":"X","kind":"laminar","sets":[{"trades":["n-x"],"bought":[[200,120],[150,90],[100,60]]}]},{"name":"Y","kind":"laminar","sets":[{"trades":["n-y","s-y"],"bought":[[150,110],[250,75]]}]},{"name":"Z","kind":"laminar","sets":[{"trades":["s-z"],"bought":[[300,95],[300,65]]}]}],"trades":[{"name":"a-n","seller":"Mill-A","buyer":"North","units":350},{"name":"a-s","seller":"Mill-A","buyer":"South","units":200},{"name":"b-n","seller":"Mill-B","buyer":"North","units":300},{"name":"b-s","seller":"Mill-B","buyer":"South","units":300},{"name":"c-s","seller":"Mill-C","buyer":"South","units":400},{"name":"n-x","seller":"North","buyer":"X","units":500},{"name":"n-y","seller":"North","buyer":"Y","units":250},{"name":"s-y","seller":"South","buyer":"Y","units":250},{"name":"s-z","seller":"South","buyer":"Z","units":600}],"arrangement":{"on":[["a-n",300],["a-s",200],["b-n",200],["b-s",50],["c-s",400],["n-x",350],["n-y",150],["s-y",250],["s-z",400]],"prices":[["a-n",58],["a-s",58],["b-n",58],["b-s",58],["c-s",50],["n-x",72],["n-y",74],["s-y",70],["s-z",65]]}}
0 {"answer":"equilibrium","surplus":44300}

check
{"version":4,"firms":[{"name":"Mill-A","kind":"laminar","sets":[{"trades":["a-n","a-s"],"sold":[[300,-40],[200,-55]]}]},{"name":"Mill-B","kind":"laminar","sets":[{"trades":["b-n","b-s"],"sold":[[250,-42],[250,-60]]}]},{"name":"Mill-C","kind":"laminar","amounts":[["c-s",-4]],"sets":[{"trades":["c-s"],"sold":[[400,-45]]}]},{"name":"North","kind":"laminar","amounts":[["n-x",-3],["n-y",-5]],"sets":[{"trades":["a-n","b-n","n-x","n-y"]},{"trades":["a-n","b-n"],"bought":[[400,-6],[200,-11]]}]},{"name":"South","kind":"laminar","amounts":[["s-y",-4],["s-z",-2]],"sets":[{"trades":["a-s","b-s","c-s","s-y","s-z"]},{"trades":["a-s","b-s","c-s"],"bought":[[700,-5]]}]},{"name":"X","kind":"laminar","sets":[{"trades":["n-x"],"bought":[[200,120],[150,90],[100,60]]}]},{"name":"Y","kind":"laminar","sets":[{"trades":["n-y","s-y"],"bought":[[150,110],[250,75]]}]},{"name":"Z","kind":"laminar","sets":[{"trades":["s-z"],"bought":[[300,95],[300,65]]}]}],"trades":[{"name":"a-n","seller":"Mill-A","buyer":"North","units":350},{"name":"a-s","seller":"Mill-A","buyer":"South","units":200},{"name":"b-n","seller":"Mill-B","buyer":"North","units":300},{"name":"b-s","seller":"Mill-B","buyer":"South","units":300},{"name":"c-s","seller":"Mill-C","buyer":"South","units":400},{"name":"n-x","seller":"North","buyer":"X","units":500},{"name":"n-y","seller":"North","buyer":"Y","units":250},{"name":"s-y","seller":"South","buyer":"Y","units":250},{"name":"s-z","seller":"South","buyer":"Z","units":600}],"arrangement":{"on":[["a-n",300],["a-s",200],["b-n",200],["b-s",50],["c-s",400],["n-x",350],["n-y",150],["s-y",250],["s-z",400]],"prices":[["a-n",55],["a-s",58],["b-n",58],["b-s",58],["c-s",50],["n-x",72],["n-y",74],["s-y",70],["s-z",65]]}}
6 {"answer":"better","bundle":[["a-n",350],["b-n",50~250],["n-x",150~500],["n-y",1~250]],"firm":"North","gain":150}

check
{"version":4,"firms":[{"name":"S","kind":"laminar","sets":[{"trades":["a"],"sold":[[10,-3]]}]},{"name":"B","kind":"laminar","amounts":[["a",5]]}],"trades":[{"name":"a","seller":"S","buyer":"B","units":20}],"arrangement":{"on":[["a",15]],"prices":[["a",4]]}}
6 {"answer":"impossible","firm":"S"}

firms
{"version":4,"firms":[{"name":"S","kind":"laminar","sets":[{"trades":["a"],"sold":[[120,-3],[80,-5]]}]},{"name":"B","kind":"laminar","sets":[{"trades":["a"],"bought":[[100,9],[100,4]]}]}],"trades":[{"name":"a","seller":"S","buyer":"B","units":200}],"arrangement":{"on":[["a",120]],"prices":[["a",4]]}}
0 {"answer":"firms","content":2,"firms":[{"best":[["a",120]],"best_utility":120,"firm":"S","gain":0,"has":[["a",120]],"utility":120,"worth":-360},{"best":[["a",120]],"best_utility":500,"firm":"B","gain":0,"has":[["a",120]],"utility":500,"worth":980}],"surplus":620}

firms
{"version":4,"firms":[{"name":"S","kind":"laminar","sets":[{"trades":["a"],"sold":[[10,-3]]}]},{"name":"B","kind":"laminar","amounts":[["a",5]]}],"trades":[{"name":"a","seller":"S","buyer":"B","units":20}],"arrangement":{"on":[["a",15]],"prices":[["a",4]]}}
6 {"answer":"firms","content":0,"firms":[{"best":[["a",10]],"best_utility":10,"firm":"S","gain":null,"has":[["a",15]],"utility":null,"worth":null},{"best":[["a",20]],"best_utility":20,"firm":"B","gain":5,"has":[["a",15]],"utility":15,"worth":75}],"surplus":null}

support
{"version":4,"firms":[{"name":"S","kind":"laminar","sets":[{"trades":["a"],"sold":[[120,-3],[80,-5]]}]},{"name":"B","kind":"laminar","sets":[{"trades":["a"],"bought":[[100,9],[100,4]]}]}],"trades":[{"name":"a","seller":"S","buyer":"B","units":200}],"arrangement":{"on":[["a",120]]}}
0 {"answer":"prices","prices":[["a",4]]}

support
{"version":4,"firms":[{"name":"S","kind":"laminar","sets":[{"trades":["a"],"sold":[[120,-3],[80,-5]]}]},{"name":"B","kind":"laminar","sets":[{"trades":["a"],"bought":[[100,9],[100,4]]}]}],"trades":[{"name":"a","seller":"S","buyer":"B","units":200}],"arrangement":{"on":[["a",119]]}}
6 {"answer":"cycle","cost":-1,"nodes":[null,["a",1]]}

support
{"version":4,"firms":[{"name":"S","kind":"laminar","sets":[{"trades":["a"],"sold":[[120,-3],[80,-5]]}]},{"name":"B","kind":"laminar","sets":[{"trades":["a"],"bought":[[100,9],[100,4]]}]}],"trades":[{"name":"a","seller":"S","buyer":"B","units":200}],"arrangement":{"on":[["a",200]]}}
6 {"answer":"cycle","cost":-1,"nodes":[null,["a",-1]]}

support
{"version":4,"firms":[{"name":"S","kind":"laminar","sets":[{"trades":["a"],"sold":[[10,-3]]}]},{"name":"B","kind":"laminar","amounts":[["a",5]]}],"trades":[{"name":"a","seller":"S","buyer":"B","units":20}],"arrangement":{"on":[["a",15]]}}
6 {"answer":"impossible","firm":"S"}

range
{"version":4,"firms":[{"name":"S","kind":"laminar","sets":[{"trades":["a"],"sold":[[120,-3],[80,-5]]}]},{"name":"B","kind":"laminar","sets":[{"trades":["a"],"bought":[[100,9],[100,4]]}]}],"trades":[{"name":"a","seller":"S","buyer":"B","units":200}]}
0 {"answer":"ranges","on":[["a",120]],"ranges":[{"high":4,"high_path":[null,["a",-1]],"low":4,"low_path":[["a",1],null],"trade":"a"}]}

check
{"version":4,"firms":[{"name":"S","kind":"laminar","sets":[{"trades":["a"],"sold":[[120,-3],[80,-5]]}]},{"name":"B","kind":"laminar","sets":[{"trades":["a"],"bought":[[100,9],[100,4]]}]}],"trades":[{"name":"a","seller":"S","buyer":"B","units":200}],"arrangement":{"on":[["a",201]],"prices":[["a",4]]}}
1 {"answer":"fault","fault":10,"name":"AmountRange","place":["arrangement","on",0,1]}

support
{"version":4,"firms":[{"name":"S","kind":"laminar","sets":[{"trades":["a"],"sold":[[120,-3],[80,-5]]}]},{"name":"B","kind":"laminar","sets":[{"trades":["a"],"bought":[[100,9],[100,4]]}]}],"trades":[{"name":"a","seller":"S","buyer":"B","units":200}],"arrangement":{"on":[["a",1],["a",2]]}}
1 {"answer":"fault","fault":17,"name":"SameTrade","place":["arrangement","on",1,0]}

support
{"version":4,"firms":[{"name":"S","kind":"laminar","sets":[{"trades":["a"],"sold":[[120,-3],[80,-5]]}]},{"name":"B","kind":"laminar","sets":[{"trades":["a"],"bought":[[100,9],[100,4]]}]}],"trades":[{"name":"a","seller":"S","buyer":"B","units":200}],"arrangement":{"on":["a"]}}
1 {"answer":"fault","fault":3,"name":"Shape","place":["arrangement","on",0]}

firms
{"version":4,"firms":[{"name":"S","kind":"laminar","sets":[{"trades":["a"],"sold":[[120,-3],[80,-5]]}]},{"name":"B","kind":"laminar","sets":[{"trades":["a"],"bought":[[100,9],[100,4]]}]}],"trades":[{"name":"a","seller":"S","buyer":"B","units":200}],"arrangement":{"on":[],"prices":[]}}
1 {"answer":"fault","fault":18,"name":"PriceMissing","place":["arrangement","prices","a"]}

session
{"version":4,"firms":[{"name":"S","kind":"laminar","sets":[{"trades":["a"],"sold":[[120,-3],[80,-5]]}]},{"name":"B","kind":"laminar","sets":[{"trades":["a"],"bought":[[100,9],[100,4]]}]}],"trades":[{"name":"a","seller":"S","buyer":"B","units":200}],"edits":[["admit","a",50],["admit","a"],["leave","B"],["join","B"],["admit","a",110],["admit","a",0],["admit","*"],["bar","*"]]}
0 {"answer":"session","edits":[{"on":[["a",50]],"prices":[["a",3~9]],"surplus":300},{"on":[["a",120]],"prices":[["a",4]],"surplus":620},{"on":[],"prices":[],"surplus":0},{"on":[["a",120]],"prices":[["a",4]],"surplus":620},{"on":[["a",110]],"prices":[["a",3~4]],"surplus":610},{"on":[],"prices":[],"surplus":0},{"on":[["a",120]],"prices":[["a",4]],"surplus":620},{"on":[],"prices":[],"surplus":0}]}

session
{"version":4,"firms":[{"name":"S","kind":"laminar","sets":[{"trades":["a"],"sold":[[120,-3],[80,-5]]}]},{"name":"B","kind":"laminar","sets":[{"trades":["a"],"bought":[[100,9],[100,4]]}]}],"trades":[{"name":"a","seller":"S","buyer":"B","units":200}],"edits":[["admit","a",201]]}
1 {"answer":"fault","fault":10,"name":"AmountRange","place":["edits",0,2]}

session
{"version":4,"firms":[{"name":"S","kind":"laminar","sets":[{"trades":["a"],"sold":[[120,-3],[80,-5]]}]},{"name":"B","kind":"laminar","sets":[{"trades":["a"],"bought":[[100,9],[100,4]]}]}],"trades":[{"name":"a","seller":"S","buyer":"B","units":200}],"edits":[["admit","a"],["bar","a",1]]}
1 {"answer":"fault","fault":3,"name":"Shape","place":["edits",1]}

session
{"version":4,"firms":[{"name":"S","kind":"laminar","sets":[{"trades":["a"],"sold":[[120,-3],[80,-5]]}]},{"name":"B","kind":"laminar","sets":[{"trades":["a"],"bought":[[100,9],[100,4]]}]}],"trades":[{"name":"a","seller":"S","buyer":"B","units":200}],"edits":[["admit","*",1]]}
1 {"answer":"fault","fault":8,"name":"UnknownTrade","place":["edits",0,1]}

session
{"version":4,"firms":[{"name":"S","kind":"laminar","sets":[{"trades":["a"],"sold":[[120,-3],[80,-5]]}]},{"name":"B","kind":"laminar","sets":[{"trades":["a"],"bought":[[100,9],[100,4]]}]}],"trades":[{"name":"a","seller":"S","buyer":"B","units":200}],"edits":[["admit","a",1,1]]}
1 {"answer":"fault","fault":3,"name":"Shape","place":["edits",0]}"#;
