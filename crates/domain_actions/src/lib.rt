// The actions of a domain, of both kinds: read into a table of names and parameters, cells, and the places where the cells of each begin.
#![tactic(auto)]

pub mod acts;
pub mod bodies;
pub mod headers;
