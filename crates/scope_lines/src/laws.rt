//! What follows from the definitions. The functions do nothing: each contract is a law.
ghost use Rattle.std.specs.Prelude.{◌≡◌, ℕ, List, All};
ghost use Rattle.scope_lines.specs.Lines.{lines_text, IsOneLine, HasLines, IsScope, SaysScopes, RefusesLines};
ghost use Rattle.scope_lines.specs.declared.lines.LineFault.{LineFault};
ghost use Rattle.scope_lines.specs.declared.lines.LineFault.TheVariants.{BadLine, NoMemory};

/// A text has one list of lines alone.
pub fn lines_are_one()
    ensures { (text : List ℕ) (lines other : List (List ℕ)) → HasLines text lines → HasLines text other → lines ≡ other }
{}

/// Each text has lines.
pub fn each_text_has_lines()
    ensures { (text : List ℕ) → (lines : List (List ℕ)) × HasLines text lines }
{}

/// Lines without a line feed are the lines of their text.
pub fn lines_are_read_back()
    ensures { (lines : List (List ℕ)) → All IsOneLine lines → HasLines (lines_text lines) lines }
{}

/// The text of scopes that may be handed in says these scopes.
pub fn written_scopes_are_read_back()
    ensures { (scopes : List (List ℕ)) → All IsScope scopes → SaysScopes (lines_text scopes) scopes }
{}

/// A text says one list of scopes alone.
pub fn the_scopes_are_one()
    ensures { (text : List ℕ) (scopes other : List (List ℕ)) → SaysScopes text scopes → SaysScopes text other → scopes ≡ other }
{}

/// No refusal but want of memory strikes a text that says scopes.
pub fn what_says_scopes_is_not_refused()
    ensures { (text : List ℕ) (scopes : List (List ℕ)) (fault : LineFault)
        → SaysScopes text scopes → RefusesLines text fault → fault ≡ NoMemory }
{}

/// The first bad line of a text is one.
pub fn the_bad_line_is_one()
    ensures { (text : List ℕ) (place other : ℕ) → RefusesLines text (BadLine place) → RefusesLines text (BadLine other) → place ≡ other }
{}
