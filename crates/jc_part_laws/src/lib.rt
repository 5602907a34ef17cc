//! How the parts of source files are read: names, annotations, modifiers, type parameters, formals, variables and heads (JLS 7, 8, 9).
//! The readers stand in `specs/`, and that they read what the grammar spells in `proofs/`; the parser of units is to stand on them.
#![tactic(auto)]
