// The nodes of a chunk where they stand: their fields with their refusals (document 01, "The chunk"). What a node is stands in crate ast.
#![tactic(auto)]

pub mod node; // a node's fields
pub mod skip; // where a node's own fields end
