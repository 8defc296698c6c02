//! What holds of the definitions. Each law is a function without a body, whose contract states it.
ghost use Rattle.std.specs.Prelude.{◌≡◌, ◌≤◌, ℕ, Bool, List, length};
ghost use Rattle.jesc_text.specs.Places.{line_at, column_at};
ghost use Rattle.jesc_text.specs.declared.place.Span.{Span};
ghost use Rattle.jesc_lexer.specs.declared.token.Tokens.{Tokens};
ghost use Rattle.jesc_ast.specs.declared.class.File.{File};
ghost use Rattle.jesc_ast.specs.Expressions.{SpellsExpression};
ghost use Rattle.jesc_ast.specs.FileTrees.{MemberForm, SourceUnit, file_view};
ghost use Rattle.jesc_ast.specs.Lexemes.{Lexeme, lexemes};
ghost use Rattle.jesc_ast.specs.Lines.{IsLines, lines_of, place_at};
ghost use Rattle.jesc_ast.specs.Members.{SpellsMemberNode, SpellsUnit, SpellsFile};
ghost use Rattle.jesc_ast.specs.SpecTrees.{Specification};
ghost use Rattle.jesc_ast.specs.Specifications.{SpellsSpec};
ghost use Rattle.jesc_ast.specs.Spelled.{texts, spell, spell_statement, spell_spec, spell_member, spell_file};
ghost use Rattle.jesc_ast.specs.Statements.{SpellsStatement};
ghost use Rattle.jesc_ast.specs.Trees.{Expression, Statement};

/// The offsets at which the lines of a text begin are those of lines: the first is 0, and they rise.
pub fn lines_rise()
    ensures { (text : List ℕ) → IsLines (lines_of text) }
{}

/// The place of a span's first byte by the lines of a text is its line and column in the text.
pub fn places_are_one()
    ensures { (text : List ℕ) (span : Span) → span.from ≤ length text → place_at (lines_of text) span ≡ record { file = span.file; line = line_at text span.from; col = column_at text span.from } }
{}

/// The texts of the lexemes that spell an expression are those of its tokens, in order.
pub fn expressions_are_spelled()
    ensures { (note : Bool) (e : Expression) (u : List Lexeme) → SpellsExpression note e u → texts u ≡ spell note e }
{}

/// The texts of the lexemes that spell a statement are those of its tokens, in order.
pub fn statements_are_spelled()
    ensures { (s : Statement) (u : List Lexeme) → SpellsStatement s u → texts u ≡ spell_statement s }
{}

/// The texts of the lexemes that spell a method's specification are those of its tokens, in order.
pub fn specifications_are_spelled()
    ensures { (t : Specification) (u : List Lexeme) → SpellsSpec t u → texts u ≡ spell_spec t }
{}

/// The texts of the lexemes that spell a member are those of its tokens, in order.
pub fn members_are_spelled()
    ensures { (m : MemberForm) (u : List Lexeme) → SpellsMemberNode m u → texts u ≡ spell_member m }
{}

/// The texts of the lexemes that spell what a file holds, its package and then its classes, are those of its tokens.
pub fn units_are_spelled()
    ensures { (t : SourceUnit) (u : List Lexeme) → SpellsUnit t u → texts u ≡ spell_file t }
{}

/// The texts of the tokens that spell a file are those of its tree, in order.
pub fn files_are_spelled()
    ensures { (tokens : Tokens) (file : File) → SpellsFile tokens file → texts (lexemes tokens) ≡ spell_file (file_view file) }
{}
