//! A law of the syntactic stage.
ghost use Rattle.jc_syntax.specs.Stage.{SyntaxIsTold};

/// A law: of sources at most one refusal is that of the stage, and then they have no trees.
pub fn syntax_is_told()
    ensures { SyntaxIsTold }
{}
