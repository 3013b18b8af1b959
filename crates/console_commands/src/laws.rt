//! What follows from the definitions. The functions do nothing: each contract is a law.
ghost use Rattle.std.specs.Prelude.{◌≡◌, ℕ, List};
ghost use Rattle.role_expand.specs.Roles.{RoleData};
ghost use Rattle.console_commands.specs.Expanding.{IsExpansion, IsBadInput};
ghost use Rattle.console_commands.specs.Rendering.{IsRendering, IsUnrendered};
ghost use Rattle.console_commands.specs.declared.inputs.TheConstants.{LONGEST_INPUT};

use farm_text::a_text_is_of_one_document;
use jsone_render::laws::the_rendering_is_one;

/// An input has at most one expansion, and one that has an expansion is refused by no rule.
pub fn an_input_is_answered_in_one_way()
    ensures one { (roles : List RoleData) (input a b : List ℕ) → IsExpansion roles input a → IsExpansion roles input b → a ≡ b }
    ensures either { (roles : List RoleData) (input text : List ℕ) → IsExpansion roles input text → ¬ IsBadInput roles input }
{}

/// An input has at most one rendering, and one that has a rendering is refused by no rule.
pub fn an_input_is_rendered_in_one_way()
    ensures one { (input a b : List ℕ) → IsRendering input a → IsRendering input b → a ≡ b }
    ensures either { (input text : List ℕ) → IsRendering input text → ¬ IsUnrendered input }
{
    the_rendering_is_one();
    a_text_is_of_one_document();
}

/// The greatest length of an input, of which the contracts speak by its name.
pub fn the_longest_input()
    ensures { LONGEST_INPUT ≡ 1048576 }
{}
