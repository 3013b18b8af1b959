//! What the tables of rows have in common.

/// The greatest number of rows of `[[role]]`, of `[[client]]`, and of `[[hook]]`.
pub const MOST_ROWS: usize = 10_000;
