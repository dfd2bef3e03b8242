//! Accept-Language fields as browsers send them: Firefox, Chrome, Safari, Edge and Opera.
use crate::tests::looking_up::field_finds;
use crate::tests::reading::{columns, reads};
use std::test::Fail;

/// Rows of `FIELD|RANGE;WEIGHT ..|FOUND`.
const FIELDS: &str = "de,en-US;q=0.7,en;q=0.3|de;1000 en-us;700 en;300|Matched(1)
fr-CH,fr;q=0.9,en-US;q=0.8,en;q=0.7,de;q=0.6|fr-ch;1000 fr;900 en-us;800 en;700 de;600|Matched(2)
zh-TW,zh-Hant;q=0.9|zh-tw;1000 zh-hant;900|Matched(3)
pt-BR,pt;q=0.9,en;q=0.8,en-GB;q=0.7,en-US;q=0.6|pt-br;1000 pt;900 en;800 en-gb;700 en-us;600|Matched(4)
fr-CH, fr;q=0.9, en;q=0.8, de;q=0.7, *;q=0.5|fr-ch;1000 fr;900 en;800 de;700 *;500|Matched(2)";

#[test]
fn of_browsers(rt: HostRuntime) -> Result<(), Fail> {
    for row in FIELDS.lines() {
        let (field, items, found, _) = columns(row);
        reads(&rt, field, items)?;
        field_finds(&rt, field, "en de fr zh-Hant pt", "", found)?;
    }
    Ok(())
}
