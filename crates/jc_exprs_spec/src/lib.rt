//! The typing of expressions in bodies (JLS 15), as definitions over parsed trees and the table of a program: calls, creations, and one row for each form.
#![tactic(auto)]
