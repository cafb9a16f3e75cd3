//! The version of Rocktray: the one place from which the programs, the header of the C library, the
//! scripts and the packages take it.
#![tactic(auto)]

/// The version.
pub const VERSION: &str = "0.2.0";

/// The version as a number: 10000 * major + 100 * minor + patch.
pub const VERSION_NUMBER: u32 = 200;
