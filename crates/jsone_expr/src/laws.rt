//! What follows from the definitions. The functions do nothing: each contract is a law.
ghost use Rattle.std.specs.Prelude.{◌≡◌, ℕ, List};
ghost use Rattle.jsone_expr.specs.declared.tokens.Token.{Token};
ghost use Rattle.jsone_expr.specs.declared.tokens.Piece.{Piece};
ghost use Rattle.jsone_expr.specs.Tokens.{IsLongest, AreTokens};
ghost use Rattle.jsone_expr.specs.Trees.{Tree};
ghost use Rattle.jsone_expr.specs.Grammar.{IsExpression, IsBadPlace};
ghost use Rattle.jsone_expr.specs.Texts.{IsTree, IsBadByte};

/// The longest token that bytes begin with is one, of one length.
pub fn the_longest_token_is_one()
    ensures { (at : ℕ) (bytes : List ℕ) (x y : Token) (n m : ℕ) → IsLongest at bytes x n → IsLongest at bytes y m → (x ≡ y) × (n ≡ m) }
{}

/// A text has one list of tokens at most.
pub fn the_tokens_are_one()
    ensures { (text : List ℕ) (ps qs : List Piece) → AreTokens text 0 ps → AreTokens text 0 qs → ps ≡ qs }
{}

/// Tokens are the expression of one tree alone.
pub fn the_tree_is_one()
    ensures { (ts : List Token) (t other : Tree) → IsExpression ts t → IsExpression ts other → t ≡ other }
{}

/// Tokens have one bad place at most.
pub fn the_bad_place_is_one()
    ensures { (ts : List Token) (i j : ℕ) → IsBadPlace ts i → IsBadPlace ts j → i ≡ j }
{}

/// A text is the expression of one tree alone.
pub fn the_tree_of_a_text_is_one()
    ensures { (text : List ℕ) (t other : Tree) → IsTree text t → IsTree text other → t ≡ other }
{}

/// A text goes wrong at one place alone, and only where it has no tree.
pub fn the_bad_place_of_a_text_is_one()
    ensures one { (text : List ℕ) (i j : ℕ) → IsBadByte text i → IsBadByte text j → i ≡ j }
    ensures no_tree { (text : List ℕ) (t : Tree) (i : ℕ) → IsTree text t → IsBadByte text i → ⊥ }
{}
