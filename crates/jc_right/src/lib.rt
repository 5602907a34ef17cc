//! When an erased tree is right: each operand's erased type is assignable where it goes, literals are in range, jumps lead to
//! statements round them, and each member is used as what it is. It holds definitions alone, in `specs/`: the typing of bodies gives
//! that they hold, and code and frames use it.
#![tactic(auto)]
