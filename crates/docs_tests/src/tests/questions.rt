//! A question of each kind to a site: of a document in the form in which it is written, and of the
//! same site in another form, which the general reader takes.

use super::asking::{all_answered, is_answered};
use std::test::Fail;

/// The form in which a site is written: `m` has a deletion, `ma` begins with `m`, and `o` has no
/// live label.
const WRITTEN: &str = concat!(
    r#"{"cells":[["a","en",1,"p",0,["First"]],["m","de",2,"p",0,null],"#,
    r#"["m","en",3,"p",0,["Hello"]],["m","fr",1,"p",1,["Salut","Bonjour"]],"#,
    r#"["ma","en",1,"p",2,["Ma"]],["o","en",1,"p",3,null],["z","de",5,"p",4,["Letzte"]],"#,
    r#"["z","en",4,"p",5,["Last"]]],"kind":"site","site":"p","version":2}"#,
    "\n"
);

/// The same with its members in another order.
const IN_ANOTHER_ORDER: &str = concat!(
    r#"{"version":2,"cells":[["a","en",1,"p",0,["First"]],["m","de",2,"p",0,null],"#,
    r#"["m","en",3,"p",0,["Hello"]],["m","fr",1,"p",1,["Salut","Bonjour"]],"#,
    r#"["ma","en",1,"p",2,["Ma"]],["o","en",1,"p",3,null],["z","de",5,"p",4,["Letzte"]],"#,
    r#"["z","en",4,"p",5,["Last"]]],"kind":"site","site":"p"}"#
);

/// Questions and their answers.
const ROWS: &str = r#"lookup|m|fr|matched fr ["Salut","Bonjour"]
lookup|o|en|nothing
filter|o|*|filter 0
export|||{"a":{"en":"First"},"m":{"en":"Hello","fr":["Salut","Bonjour"]},"ma":{"en":"Ma"},"z":{"de":"Letzte","en":"Last"}}
missing|fr||{"a":{"en":"First"},"ma":{"en":"Ma"},"z":{"de":"Letzte","en":"Last"}}
outdated|fr|en|{"m":{"en":"Hello","fr":["Salut","Bonjour"]}}
bundle||fr, en;q=0.5|{"a":{"en":"First"},"m":{"fr":["Salut","Bonjour"]},"ma":{"en":"Ma"},"z":{"en":"Last"}}
bundle||es|{}"#;

#[test]
fn questions(rt: HostRuntime) -> Result<(), Fail> {
    for site in [WRITTEN, IN_ANOTHER_ORDER] {
        all_answered(&rt, site.as_bytes(), ROWS)?;
    }
    Ok(())
}

/// The lines of a filter for all languages, and a default.
#[test]
fn lines(rt: HostRuntime) -> Result<(), Fail> {
    let two = "filter 2\nen 1000 [\"Hello\"]\nfr 1000 [\"Salut\",\"Bonjour\"]";
    assert!(rt; is_answered(rt.alloc(), WRITTEN.as_bytes(), "filter|m|*", two)?);
    let default = "default en [\"Ma\"]";
    assert!(rt;
        is_answered(
            rt.alloc(),
            WRITTEN.as_bytes(),
            "lookup|ma|fr default en",
            default
        )?
    );
    Ok(())
}

/// Questions are refused as the reader refuses the site.
#[test]
fn a_refused_site_is_document_1(rt: HostRuntime) -> Result<(), Fail> {
    let not_json = "refused 19: not JSON of document 1";
    assert!(rt; is_answered(rt.alloc(), b"{", "lookup|a|en", not_json)?);
    assert!(rt; is_answered(rt.alloc(), b"{", "missing|en|", not_json)?);
    Ok(())
}

/// A site of version 1.
const OF_VERSION_1: &str = concat!(
    r#"{"cells":[["m","@none",1,1,0,["x"]],["m","en",2,1,0,["Hello"]],"#,
    r#"["m","fr",1,1,1,["Bon\"jour","Salut"]],["n","de",1,1,2,["Hallo"]],["o","en",1,1,3,null]],"#,
    r#""kind":"site","site":1,"version":1}"#
);

const STATUS_AND_SUMMARY: &str = concat!(
    "status|||site 0000000001 cells 5 labels 4 last 2 0000000001 0\n",
    r#"summary|||{"kind":"summary","owner":"0000000001","stamps":[["m","@none",1,"0000000001",0],"#,
    r#"["m","en",2,"0000000001",0],["m","fr",1,"0000000001",1],["n","de",1,"0000000001",2],"#,
    r#"["o","en",1,"0000000001",3]],"version":2}"#
);

#[test]
fn the_status_and_the_summary(rt: HostRuntime) -> Result<(), Fail> {
    all_answered(&rt, OF_VERSION_1.as_bytes(), STATUS_AND_SUMMARY)
}
