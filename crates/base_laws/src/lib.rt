// What laws of many crates need and no crate owns: lists, stores, numerals and tests. Laws, no code.
#![tactic(auto)]
