// What init holds, read into the first facts and the first numbers.
#![tactic(auto)]

pub mod entries;
pub mod grounds;
pub mod values;
