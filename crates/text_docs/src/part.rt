//! The part of a written document in which all rows of a message are.
ghost use Rattle.std.specs.Prelude.{◌≡◌, ◌<◌, ◌≤◌, IfSome, length};
ghost use Rattle.text_docs.specs.inner.Part.{HasAllFrom, HasAllUpTo};
ghost use Rattle.text_docs.specs.inner.Rows.{AreRowsAt};

use crate::id_order::order_of;
use crate::row::next_row;
use crate::rows::Rows;

/// The rows of the message, of all rows of the text: none before them is of it, and none after
/// them. The first may be of the message before.
pub(crate) fn part_of(text: &[u8], rows: Rows, id: &[u8]) -> Rows
    requires { AreRowsAt text.now rows.start rows.end }
    ensures start { HasAllFrom text.now id.now result.start }
    ensures end { HasAllUpTo text.now id.now result.end }
    ensures within { (result.start ≤ result.end) × (result.end ≤ rows.end) }
{
    let start = last_before(text, rows, id);
    let end = first_after(text, start, rows.end, id);
    Rows { start, end }
}

/// Where the last row of a lesser id begins, found by bisection; or where the first row begins.
fn last_before(text: &[u8], rows: Rows, id: &[u8]) -> usize
    requires { AreRowsAt text.now rows.start rows.end }
    ensures begins { HasAllFrom text.now id.now result }
    ensures within { result ≤ rows.end }
{
    let mut low = rows.start;
    let mut high = rows.end;
    while low < high {
        let middle = low + (high - low) / 2;
        match lesser_row(text, middle, high, id) {
            Some(start) => low = start,
            None => high = middle,
        }
    }
    low
}

/// Where the next row begins, if its id is less than this one.
fn lesser_row(text: &[u8], from: usize, end: usize, id: &[u8]) -> Option<usize>
    requires { end ≤ length text.now }
    ensures { IfSome result (λ start. (from < start) × (start ≤ end)
        × HasAllFrom text.now id.now start) }
{
    let row = next_row(text, from, end)?;
    let start = row.bracket + 2;
    if start <= end && order_of(row.id, id).is_lt() {
        Some(start)
    } else {
        None
    }
}

/// Where the first row of a greater id begins, or all rows end.
fn first_after(text: &[u8], start: usize, end: usize, id: &[u8]) -> usize
    requires within { (start ≤ end) × (end ≤ length text.now) }
    requires end { HasAllUpTo text.now id.now end }
    ensures ends { HasAllUpTo text.now id.now result }
    ensures within { (start ≤ result) × (result ≤ end) }
{
    let mut from = start;
    while let Some(row) = next_row(text, from, end) {
        if order_of(row.id, id).is_gt() {
            return row.bracket + 1;
        }
        from = row.bracket + 1;
    }
    end
}
