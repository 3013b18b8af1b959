//! Which members an index and a slice mean.
ghost use Rattle.std.specs.Prelude.{◌≡◌, ◌≤◌, max};
ghost use Rattle.jsone_values.specs.Places.{place_of, cut_of};

/// The place that an index means among so many members, if there is one.
pub fn place_of(index: i64, count: usize) -> Option<usize>
    ensures { result ≡ place_of index count }
{
    let size = index.unsigned_abs() as usize;
    if index < 0 {
        if size <= count {
            Some(count - size)
        } else {
            None
        }
    } else if size < count {
        Some(size)
    } else {
        None
    }
}

/// Where a side of a slice cuts so many members.
pub fn cut_of(index: i64, count: usize) -> usize
    ensures { result ≡ cut_of index count }
{
    let size = index.unsigned_abs() as usize;
    if index < 0 {
        count.saturating_sub(size)
    } else {
        size.min(count)
    }
}
