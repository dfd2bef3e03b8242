//! The statuses that the program ends with.
ghost use Rattle.std.specs.Prelude.{◌≡◌};
ghost use Rattle.command_core.specs.Status.{status_of};

/// The question is answered.
pub const ANSWERED: u8 = 0;

/// The answer is that nothing fits.
pub const NOTHING: u8 = 1;

/// Usage error.
pub const USAGE: u8 = 2;

/// The command is refused for its arguments or its input.
pub const REFUSED: u8 = 3;

/// A stream failed.
pub const STREAM_FAULT: u8 = 4;

/// Memory ran out.
pub const OUT_OF_MEMORY: u8 = 5;

/// The status of a refusal with this number.
pub fn of_refusal(number: u8) -> u8
    ensures { result ≡ status_of number }
{
    match number {
        24 | 25 => STREAM_FAULT,
        26 => OUT_OF_MEMORY,
        _ => REFUSED,
    }
}
