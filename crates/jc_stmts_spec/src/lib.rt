//! The typing of statements and bodies (JLS 14), and the rules of the stage of bodies, as definitions.
#![tactic(auto)]
