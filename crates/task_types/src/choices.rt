//! A task's priority, and what it asks of its dependencies.
ghost use Rattle.std.specs.Prelude.{◌≡◌};
ghost use Rattle.task_types.specs.Choices.{priority_name, priority_of, requires_name, requires_of};

/// The priorities, the highest first: of two tasks that wait, the one of the higher priority is taken.
#[derive(Clone, Copy, Debug, PartialEq, Eq)]
pub enum Priority {
    Highest,
    VeryHigh,
    High,
    Medium,
    Low,
    VeryLow,
    Lowest,
}

impl Priority {
    /// The priority of this name, if there is one. `normal` is another name of the lowest.
    pub fn from_name(name: &str) -> Option<Priority>
        ensures { result ≡ priority_of name.now }
    {
        match name {
            "highest" => Some(Priority::Highest),
            "very-high" => Some(Priority::VeryHigh),
            "high" => Some(Priority::High),
            "medium" => Some(Priority::Medium),
            "low" => Some(Priority::Low),
            "very-low" => Some(Priority::VeryLow),
            "lowest" | "normal" => Some(Priority::Lowest),
            _ => None,
        }
    }

    /// The name of the priority.
    pub fn name(self) -> &'static str
        ensures { result.now ≡ priority_name self }
    {
        match self {
            Priority::Highest => "highest",
            Priority::VeryHigh => "very-high",
            Priority::High => "high",
            Priority::Medium => "medium",
            Priority::Low => "low",
            Priority::VeryLow => "very-low",
            Priority::Lowest => "lowest",
        }
    }
}

/// What a task waits for.
#[derive(Clone, Copy, Debug, PartialEq, Eq)]
pub enum Requires {
    /// That each dependency is completed.
    AllCompleted,
    /// That each dependency is resolved in any way.
    AllResolved,
}

impl Requires {
    /// What this name asks, if it is one.
    pub fn from_name(name: &str) -> Option<Requires>
        ensures { result ≡ requires_of name.now }
    {
        match name {
            "all-completed" => Some(Requires::AllCompleted),
            "all-resolved" => Some(Requires::AllResolved),
            _ => None,
        }
    }

    /// The name of what is asked.
    pub fn name(self) -> &'static str
        ensures { result.now ≡ requires_name self }
    {
        match self {
            Requires::AllCompleted => "all-completed",
            Requires::AllResolved => "all-resolved",
        }
    }
}
