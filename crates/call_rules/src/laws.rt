//! What follows from the table. The function does nothing: its contract is a law.
ghost use Rattle.std.specs.Prelude.{ℕ, ◌≤◌, List, IsTrue};
ghost use Rattle.scope_sets.specs.Expressions.{holds};
ghost use Rattle.task_types.specs.declared.choices.Priority.{Priority as AnyPriority};
ghost use Rattle.task_types.specs.declared.task_def.TaskDef.{TaskDef as AnyTaskDef};
ghost use Rattle.call_rules.specs.Policy.{rank, create_policy};

/// Whoever may create a task may create the same task at each lower priority.
pub fn a_lower_priority_asks_less()
    ensures { (set : List (List ℕ)) (def : AnyTaskDef) (lower : AnyPriority) → rank def.priority ≤ rank lower
        → IsTrue (holds set (create_policy def)) → IsTrue (holds set (create_policy (record def { priority = lower }))) }
{}
