//! Examples from the standards, and what no contract says: texts, and that calls can succeed.
mod lengths;
mod matching;
mod parsing;
mod parts;
mod refusals;
mod truncations;
mod values;

/// The columns of a row, between bars. Those that are not there are empty.
fn columns(row: &str) -> (&str, &str, &str, &str) {
    let (first, rest) = row.split_once("|").unwrap_or((row, ""));
    let (second, rest) = rest.split_once("|").unwrap_or((rest, ""));
    let (third, fourth) = rest.split_once("|").unwrap_or((rest, ""));
    (first, second, third, fourth)
}
