//! The typing of expressions in bodies (JLS 6.5, 15) as far as no member is chosen, as definitions over the table of a program: operators, names and fields, constants, assignments, arrays, casts
//! and conditionals.
#![tactic(auto)]
