// The form of a chunk (document 01, "The chunk" and refusals 1 to 8).
#![tactic(auto)]

pub mod header; // the header's fields
pub mod form; // the whole chunk
