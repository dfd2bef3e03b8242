//! What a call reports beside its status.
ghost use Rattle.std.specs.Prelude.{◌≡◌, ◌≤◌};
ghost use Rattle.front_c.specs.Reporting.{answered, bit_of, given_of, refused};

use front_core::FrontFault;

/// What a call reports beside its status. A member that means nothing in a call is 0.
#[repr(C)]
#[derive(Clone, Copy, Debug, PartialEq, Eq)]
pub struct Told {
    /// The bytes of the answer, also where the buffer has no room for them.
    pub len: usize,
    /// The place of refusals 3, 9 and 18 in the text that is refused, from 0.
    pub offset: usize,
    /// The row of a document's refusal, from 0.
    pub row: usize,
    /// What the call counts. Of a refusal, if its number is 11: the index of the text in its label;
    /// if 12: how many texts the label has; if 13: the index of the cell in the receiving site.
    /// Indexes count from 0.
    pub count: usize,
    /// The number of the refusal, or 0.
    pub number: u32,
    /// What a refusal has: the sum of 1 where it has an offset, 2 a row, 4 a count, and 8 where it
    /// is of the second of two documents that the call reads.
    pub given: u32,
}

impl Told {
    /// The report of an answer of this length.
    pub(crate) fn answered(len: usize, count: usize) -> Told
        ensures { result ≡ answered len count }
    {
        Told {
            len,
            offset: 0,
            row: 0,
            count,
            number: 0,
            given: 0,
        }
    }

    /// The report of a refusal.
    pub(crate) fn refused(fault: &FrontFault) -> Told
        ensures { result ≡ refused fault.now }
    {
        Told {
            len: 0,
            offset: fault.offset().unwrap_or(0),
            row: fault.row().unwrap_or(0),
            count: fault.count().unwrap_or(0),
            number: u32::from(fault.number()),
            given: given_of(fault),
        }
    }
}

/// What a refusal has.
fn given_of(fault: &FrontFault) -> u32
    ensures { result ≡ given_of fault.now }
{
    bit_of(fault.offset().is_some(), 1)
        + bit_of(fault.row().is_some(), 2)
        + bit_of(fault.count().is_some(), 4)
        + bit_of(fault.document() == 2, 8)
}

/// The bit where something is there, else 0.
fn bit_of(is_there: bool, bit: u32) -> u32
    requires { bit ≤ 8 }
    ensures bit { result ≡ bit_of is_there bit }
    ensures small { result ≤ 8 }
{
    if is_there { bit } else { 0 }
}
