//! A law of the grammar of types (JLS 4).
#![tactic(auto)]

ghost use Rattle.jc_type_laws.specs.TypesDifferInTokens.{TypesDifferInTokens};

/// A law: no two types have the same tokens, however deep they are.
pub fn types_differ_in_tokens()
    ensures { TypesDifferInTokens }
{}
