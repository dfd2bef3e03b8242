//! The texts and the numbers of refusals.

use super::makers::shown;
use cell_core::CellFault;
use std::alloc::Global;
use std::process::Abort;

fn assert_shown(rt: &impl Abort, alloc: Global, fault: CellFault, number: u8, text: &str) {
    assert!(rt; fault.number() == number);
    assert!(rt; shown(rt, alloc, &fault).as_str() == text);
}

#[test]
fn names_and_numbers(rt: HostRuntime) {
    let alloc = rt.alloc();
    let long = CellFault::TextTooLong { index: 3 };
    let count = CellFault::LabelCount { count: 65 };
    assert_shown(&rt, alloc, CellFault::IdRefused, 10, "message id");
    assert_shown(&rt, alloc, long, 11, "text 3 is over 65535 bytes");
    assert_shown(&rt, alloc, count, 12, "label has 65 texts");
    assert_shown(&rt, alloc, CellFault::ClockSpent, 14, "clock is spent");
    assert_shown(&rt, alloc, CellFault::NoMemory, 26, "out of memory");
    assert_shown(&rt, alloc, CellFault::SiteName, 27, "site name");
}
