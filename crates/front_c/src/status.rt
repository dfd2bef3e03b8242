//! The statuses of calls: those of the command.
ghost use Rattle.std.specs.Prelude.{◌≡◌};
ghost use Rattle.front_c.specs.Status.{status_of_outcome, status_of_refusal};

use front_core::{FrontFault, Outcome};

/// Found, or done.
pub(crate) const FOUND: i32 = 0;

/// Nothing was found.
pub(crate) const NOTHING: i32 = 1;

/// A flag that is none, or a handle that is not open.
pub(crate) const USAGE: i32 = 2;

/// The call is refused for one of its arguments.
pub(crate) const REFUSED: i32 = 3;

/// Memory ran out.
pub(crate) const OUT_OF_MEMORY: i32 = 5;

/// The status of an answer.
pub(crate) fn of_outcome(outcome: Outcome) -> i32
    ensures { result ≡ status_of_outcome outcome }
{
    match outcome {
        Outcome::Found => FOUND,
        Outcome::Nothing => NOTHING,
    }
}

/// The status of a refusal.
pub(crate) fn of_refusal(fault: &FrontFault) -> i32
    ensures { result ≡ status_of_refusal fault.now }
{
    match fault {
        FrontFault::NoMemory => OUT_OF_MEMORY,
        _ => REFUSED,
    }
}
