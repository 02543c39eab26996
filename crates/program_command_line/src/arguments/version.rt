// The version.

/// The version of all programs, as the package has it.
pub const VERSION: &str = "0.1";
