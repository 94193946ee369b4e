//! The laws of the grammar and of scripts.
ghost use Rattle.std.specs.Prelude.{◌≡◌, ℕ, List};
ghost use Rattle.myrial_ast.specs.Trees.{Tree, StatementTree};
ghost use Rattle.myrial_lexer.specs.declared.kinds.Token.{Token};
ghost use Rattle.myrial_parser.specs.Terminals.{Terminal};
ghost use Rattle.myrial_parser.specs.Grammar.{IsExpression, Reads};
ghost use Rattle.myrial_parser.specs.Pieces.{IsFirstFault, IsScript, PieceFault};

/// The law that terminals read as at most one expression. It does nothing.
pub fn an_expression_has_one_tree()
    ensures { (ts : List Terminal) (a b : Tree) → IsExpression ts a → IsExpression ts b → a ≡ b }
{}

/// The law that terminals read as at most one statement. It does nothing.
pub fn a_piece_has_one_statement()
    ensures { (ts : List Terminal) (a b : StatementTree) → Reads ts a → Reads ts b → a ≡ b }
{}

/// The law that a script has one reading: one list of statements, or one first fault. It does
/// nothing.
pub fn a_script_has_one_reading()
    ensures statements { (text : List ℕ) (tokens : List Token) (a b : List StatementTree)
        → IsScript text tokens a → IsScript text tokens b → a ≡ b }
    ensures either { (text : List ℕ) (tokens : List Token) (a : List StatementTree) (n : ℕ)
        (f : PieceFault) → IsScript text tokens a → IsFirstFault text tokens n f → ⊥ }
    ensures fault { (text : List ℕ) (tokens : List Token) (m n : ℕ) (f g : PieceFault)
        → IsFirstFault text tokens m f → IsFirstFault text tokens n g → (m ≡ n) × (f ≡ g) }
{}
