//! Laws of the lexer (JLS 3).
#![tactic(auto)]

ghost use Rattle.jc_lexer_laws.specs.TokensAreTold.{TokensAreTold};

/// A law: the tokens of a source come in their order, each of them is what the source's text begins with where the token does, the letters
/// of identifiers and keywords are those of the text, and each literal is what its part of the text is when it is read alone.
pub fn tokens_are_told()
    ensures { TokensAreTold }
{}
