//! A row of each kind of question, over streams in memory. All rows are in tests/command/rows,
//! and are asked of the program by tests/command/rows.t.
use super::harness::all_end;
use std::test::Fail;

/// Rows of `STATUS|WORDS|INPUT|LINES` without documents: picks, a new site, an explanation, help,
/// the version, words that are refused or taken before the first read, and usage faults.
const WORDS: &str = r#"0|pick zh-Hant-CN-x-private1-private2 zh-Hant en|-|matched zh-hant
0|pick --default en ja en fr|-|default en
0|pick en-US,en;q=0.8333 --lenient en fr|-|matched en
0|pick --widen 'fr-FR, fr;q=0.9, en;q=0.7' en fr-CA|-|matched fr-ca
0|pick --all --scheme extended de-*-DE de-Latn-DE de|-|filter 1 / de-latn-de 1000
1|pick en-GB fr|-|nothing
3|pick --default e en;q=2 e|-|refused 4: tag is not well-formed
0|new --site 1|-|{"cells":[],"kind":"site","site":"1","version":2}
3|new --site Paris|-|refused 27: site name
0|explain 27|-|~refusal 27
0|explain clock-ahead|-|~refusal 29
0|help pick|-|~Usage: lexicat pick [OPTIONS] <RANGES> <TAG>...
0|--version|-|lexicat 0.4.0
3|filter --id @m en;q=2|-|refused 10: message id
4|put --now +5 --id m --lang @none a b|-|refused 24: read fault
2|explain 32|-|~--help
2|status a|-|~Usage: lexicat status < SITE"#;

#[test]
fn words(rt: HostRuntime) -> Result<(), Fail> {
    all_end(&rt, WORDS)
}

/// The same of each command over documents, and of documents that are refused.
const DOCUMENTS: &str =
    r#"0|put --now 5 --id m --lang en a|{"cells":[],"kind":"site","site":"a","version":2}|{"cells":[["m","en",5,"a",0,["a"]]],"kind":"site","site":"a","version":2}
0|delete --now 3 --id m --lang en|{"cells":[["m","en",5,"a",0,["a"]]],"kind":"site","site":"a","version":2}|{"cells":[["m","en",5,"a",1,null]],"kind":"site","site":"a","version":2}
0|status|{"cells":[["m","en",5,"a",1,null]],"kind":"site","site":"a","version":2}|site a cells 1 labels 0 last 5 a 1
0|import --now 10|{"cells":[],"kind":"site","site":"a","version":2} / {"m":{"EN":"a"}}|{"cells":[["m","en",10,"a",0,["a"]]],"kind":"site","site":"a","version":2}
0|update --now 6|{"cells":[["m","en",5,"a",0,["a"]]],"kind":"site","site":"a","version":2} / {"m":{"en":"a"}} / {}|{"cells":[["m","en",6,"a",0,null]],"kind":"site","site":"a","version":2}
0|export|{"cells":[["m","en",5,"a",0,["a"]]],"kind":"site","site":"a","version":2}|{"m":{"en":"a"}}
0|missing --lang de|{"cells":[["m","en",5,"a",0,["a"]]],"kind":"site","site":"a","version":2}|{"m":{"en":"a"}}
1|outdated --lang en --source de|{"cells":[["m","en",5,"a",0,["a"]]],"kind":"site","site":"a","version":2}|{}
0|changes|{"cells":[],"kind":"site","site":"a","version":2} / {"cells":[["m","en",5,"a",0,["a"]]],"kind":"site","site":"a","version":2}|changes 1 / ["m","en",null,[5,"a",0,["a"]]]
0|labels|{"cells":[["m","en",5,"a",0,["a"]]],"kind":"site","site":"a","version":2}|labels 1 / en 1
0|filter --id m en|{"cells":[["m","en",5,"a",0,["a"]]],"kind":"site","site":"a","version":2}|filter 1 / en 1000 ["a"]
0|lookup --id m --default en ja|{"cells":[["m","en",5,"a",0,["a"]]],"kind":"site","site":"a","version":2}|default en ["a"]
0|bundle --widen en|{"cells":[["m","en-us",5,"a",0,["a"]]],"kind":"site","site":"a","version":2}|{"m":{"en-us":"a"}}
0|summary|{"cells":[["m","en",5,"a",0,["a"]]],"kind":"site","site":"a","version":2}|{"kind":"summary","owner":"a","stamps":[["m","en",5,"a",0]],"version":2}
0|summary --labels|{"cells":[["m","en",5,"a",0,["a"]]],"kind":"site","site":"a","version":2}|{"kind":"summary","labels":["2b288c997252f102"],"owner":"a","stamps":[["m","en",5,"a",0]],"version":2}
0|delta|{"cells":[["m","en",5,"a",0,["a"]]],"kind":"site","site":"a","version":2} / {"kind":"summary","owner":"b","stamps":[],"version":2}|{"cells":[["m","en",5,"a",0,["a"]]],"kind":"delta","to":"b","version":2}
3|take --not-after 4|{"cells":[],"kind":"site","site":"b","version":2} / {"cells":[["m","en",5,"a",0,["a"]]],"kind":"delta","to":"b","version":2}|refused 29: time is ahead in row 0 of document 2
0|sync|{"cells":[["m","en",5,"a",0,["a"]]],"kind":"site","site":"a","version":2} / {"cells":[],"kind":"site","site":"b","version":2}|{"cells":[["m","en",5,"a",0,["a"]]],"kind":"site","site":"a","version":2} / {"cells":[["m","en",5,"a",0,["a"]]],"kind":"site","site":"b","version":2}
3|sync|{"cells":[["m","en",5,"a",0,["a"]]],"kind":"site","site":"a","version":2}|refused 19: not JSON of document 2
0|merge|{"cells":[],"kind":"site","site":"b","version":2} / {"cells":[["m","en",5,"a",0,["a"]]],"kind":"site","site":"a","version":2}|{"cells":[["m","en",5,"a",0,["a"]]],"kind":"site","site":"b","version":2}
3|merge --not-after 4|{"cells":[],"kind":"site","site":"b","version":2} / {"cells":[["m","en",5,"a",0,["a"]]],"kind":"site","site":"a","version":2}|refused 29: time is ahead in row 0 of document 2
3|status|{"cells":[["m","en",5,"A",0,["a"]]],"kind":"site","site":"a","version":2}|refused 27: site name in row 0 of document 1
4|replay|-|refused 24: read fault"#;

#[test]
fn documents(rt: HostRuntime) -> Result<(), Fail> {
    all_end(&rt, DOCUMENTS)
}
