// The model prepared for running: what its rows mean. Definitions and laws, no code.
#![tactic(auto)]
