use farm_text::Text;

/// Why a group has no room for a task.
#[derive(Drop)]
pub enum ReserveFault {
    /// The tasks of the group have this scheduler, which is another.
    OtherScheduler(Text),
    /// Memory ran out.
    NoMemory,
}
