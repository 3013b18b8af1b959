use farm_text::Moment;

/// How many tasks stand at most.
pub const MOST_TASKS: usize = 1_000_000;

/// How much the tables of a farm keep.
#[derive(Clone, Copy, Debug, PartialEq, Eq)]
pub struct RowCounts {
    /// How many tasks stand, at most 1,000,000.
    pub rows: u32,
    /// The number that the next pending run draws.
    pub next: u64,
    /// The last moment that was reached.
    pub last: Moment,
}
