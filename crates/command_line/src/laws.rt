//! What follows from the definitions. The functions do nothing: each contract is a law.
ghost use Rattle.std.specs.Prelude.{◌≡◌, ◌↔◌, ℕ, List, [], ◌∷◌, Some, None, All, IsUtf8};
ghost use Rattle.command_line.specs.Forms.{SaysRender, SaysWork};
ghost use Rattle.command_line.specs.Service.{IsInRange};
ghost use Rattle.command_line.specs.Words.{disk_of, reading, name_of, IsPlain};
ghost use Rattle.command_line.specs.declared.command.Command.TheVariants.{OverFarm, Render};
ghost use Rattle.command_line.specs.declared.command.Work.{Work as AnyWork};
ghost use Rattle.command_line.specs.declared.command.Work.TheVariants.{Serve};
ghost use Rattle.command_line.specs.declared.service.Service.{Service as AnyService};

/// Each work over a farm that no disk keeps is read with any farm file whose name does not begin with `-`.
pub fn plain_words_are_read()
    ensures { (farm : List ℕ) (work : AnyWork) → IsPlain farm → disk_of work ≡ None → reading (name_of work ∷ farm ∷ []) ≡ Some (OverFarm farm work) }
{}

/// Of all texts exactly these are read as work over a farm: the work's name, and then the farm file, alone, after `--`, or before a
/// last `--`; and where the work has a disk, `--disk` with its name before or after the farm file, and before any `--`. Those of `serve`
/// give the farm file and its options in any order, each once, with `--` before the farm file that is last, or at the end.
pub fn words_that_say_a_command_are_read()
    ensures { (words : List (List ℕ)) (farm : List ℕ) (work : AnyWork) → All IsUtf8 words
        → ((reading words ≡ Some (OverFarm farm work)) ↔ SaysWork farm work words) }
{}

/// A service that is read has 1 to 64 workers, each of 1 to 1,000,000 connections.
pub fn services_are_in_range()
    ensures { (words : List (List ℕ)) (farm : List ℕ) (service : AnyService) → reading words ≡ Some (OverFarm farm (Serve service)) → IsInRange service }
{}

/// Of all texts exactly these are read as `render`: this one word, alone or before a last `--`.
pub fn words_that_say_render_are_read()
    ensures { (words : List (List ℕ)) → All IsUtf8 words → ((reading words ≡ Some Render) ↔ SaysRender words) }
{}
