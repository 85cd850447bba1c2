// What a script of calls needs beside them: its lines, tables of words, outputs that are filled with a mark, and the parts of a check changed.
#![tactic(auto)]

pub mod lines;
pub mod marks;
pub mod spoil;
pub mod words;
