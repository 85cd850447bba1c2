// Conditions, effects and actions as cells of the code, and back: definitions and laws, no code.
#![tactic(auto)]
