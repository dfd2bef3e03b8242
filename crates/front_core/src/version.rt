//! The version of the command and of the library.

/// The version, as `lexicat --version` prints it.
pub const VERSION: &str = "0.4.0";

/// The same as a number: 10,000 times the major number, 100 times the minor number and the patch
/// number, added up.
pub const VERSION_NUMBER: u32 = 400;
