//! The summary of a site's document, in the form in which it is written and in others.

use site_docs::document_summary;
use std::alloc::Global;

/// A site with a deletion, and a text that looks like the end of a document of another site.
const SITE: &str = concat!(
    r#"{"cells":[["m","@none",5,"a",0,null],"#,
    r#"["m","en",7,"b",4294967295,["]],\"kind\":\"site\",\"site\":\"rome\",\"version\":2}"]]],"#,
    r#""kind":"site","site":"paris","version":2}"#,
    "\n"
);

/// The same with a blank before its first row.
const SITE_WITH_A_BLANK: &str = concat!(
    r#"{"cells":[ ["m","@none",5,"a",0,null],"#,
    r#"["m","en",7,"b",4294967295,["]],\"kind\":\"site\",\"site\":\"rome\",\"version\":2}"]]],"#,
    r#""kind":"site","site":"paris","version":2}"#,
);

const SUMMARY: &str = concat!(
    r#"{"kind":"summary","owner":"paris","stamps":[["m","@none",5,"a",0],"#,
    r#"["m","en",7,"b",4294967295]],"version":2}"#,
    "\n"
);

/// Ids with a quote and a backslash, which are written with escapes.
const QUOTED: &str = concat!(
    r#"{"cells":[["a\"b","en",1,"a",0,["x"]],["aB","en",1,"a",1,["w"]],"#,
    r#"["a\\","en",2,"b",0,["y"]]],"kind":"site","site":"paris","version":2}"#,
    "\n"
);

const OF_QUOTED: &str = concat!(
    r#"{"kind":"summary","owner":"paris","stamps":[["a\"b","en",1,"a",0],["aB","en",1,"a",1],"#,
    r#"["a\\","en",2,"b",0]],"version":2}"#,
    "\n"
);

const EMPTY: &str = "{\"cells\":[],\"kind\":\"site\",\"site\":\"0-z\",\"version\":2}\n";

const OF_EMPTY: &str = "{\"kind\":\"summary\",\"owner\":\"0-z\",\"stamps\":[],\"version\":2}\n";

/// Whether this is the summary of the site that is written so.
fn is_summary(alloc: Global, site: &str, summary: &str) -> bool {
    match document_summary(alloc, 1, site.as_bytes()) {
        Ok(doc) => doc.bytes() == summary.as_bytes(),
        Err(_) => false,
    }
}

#[test]
fn of_a_site_as_it_is_written(rt: HostRuntime) {
    assert!(rt; is_summary(rt.alloc(), SITE, SUMMARY));
    assert!(rt; is_summary(rt.alloc(), SITE.trim_end(), SUMMARY));
    assert!(rt; is_summary(rt.alloc(), QUOTED, OF_QUOTED));
    assert!(rt; is_summary(rt.alloc(), EMPTY, OF_EMPTY));
}

/// The empty site with a blank, with its members in another order, and twice its cells.
const OTHER_FORMS: &str = r#"
{"cells":[], "kind":"site","site":"0-z","version":2}
{"version":2,"site":"0-z","kind":"site","cells":[]}
{"cells":[["m","en",5,"a",0,["x"]]],"kind":"site","site":"0-z","version":2,"cells":[]}"#;

#[test]
fn of_a_site_in_another_form(rt: HostRuntime) {
    for text in OTHER_FORMS.trim_start().lines() {
        assert!(rt; is_summary(rt.alloc(), text, OF_EMPTY), "{text}");
    }
    assert!(rt; is_summary(rt.alloc(), SITE_WITH_A_BLANK, SUMMARY));
}

/// No site's document.
const REFUSED: &str = r#"
]
{"cells":[],"kind":"delta","to":"0-z","version":2}
{"cells":[],"kind":"site","site":"0-z","version":1}
{"cells":[["m","en",5,"a",0,["x"]],],"kind":"site","site":"0-z","version":2}
{"cells":[]],"kind":"site","site":"0-z","version":2}"#;

#[test]
fn none_of_what_is_refused(rt: HostRuntime) {
    for text in REFUSED.lines() {
        assert!(rt;
            document_summary(rt.alloc(), 1, text.as_bytes()).is_err(),
            "{text}"
        );
    }
}
