// Prepared actions mean what the actions mean, at every happening, between them and at the goal. Laws, no code.
#![tactic(auto)]
