//! The inputs of commands.

/// The greatest number of bytes of an input.
pub const LONGEST_INPUT: usize = 1_048_576;
