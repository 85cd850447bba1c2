// When a plan is valid, stated over its steps apart from how that is computed, and the proof that `valid` says exactly this. No code.
#![tactic(auto)]
