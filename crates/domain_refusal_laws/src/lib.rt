// What the lowest place means for a reader that goes from left to right: a statement and its proof, no code.
#![tactic(auto)]
