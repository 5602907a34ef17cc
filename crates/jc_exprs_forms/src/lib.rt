//! The typing of each form of expressions by its parts (JLS 15), as laws.
#![tactic(auto)]
