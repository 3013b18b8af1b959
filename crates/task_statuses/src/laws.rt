//! What follows from the definitions. The function does nothing: its contract is a law.
ghost use Rattle.std.specs.Prelude.{◌≡◌, ◌≤◌, ℕ, List};
ghost use Rattle.farm_text.specs.Moment.{IsMomentText};
ghost use Rattle.task_statuses.specs.Calendar.{moment_text};

/// The text of each moment, up to the last of the year 9999, is the one that the calendar gives, counted out.
pub fn moments_have_texts()
    ensures is { (millis : ℕ) → millis ≤ 253402300799999 → IsMomentText millis (moment_text millis) }
    ensures one { (millis : ℕ) (text : List ℕ) → millis ≤ 253402300799999 → IsMomentText millis text
        → text ≡ moment_text millis }
{}
