//! Which vertices of a directed graph lie on a cycle, in time linear in its edges.
//!
//! A graph is a list of rows: row a has the vertices to which there is an edge from a. The strongly connected components are found
//! by two searches in depth, which promise nothing; what they claim is then checked at each vertex and each edge, and only the check
//! is proved. Were a claim ever wrong, each vertex would be searched from by itself.
#![tactic(auto)]

mod checking;
mod claiming;
mod claims;
mod marking;
mod searching;

pub use marking::on_cycles;
