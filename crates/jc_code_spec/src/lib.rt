//! The code of erased methods, whose places are labels yet: what each form of an expression and of a statement becomes (JVMS 3), and where
//! labels come to stand. It holds definitions alone, in `specs/`.
#![tactic(auto)]
