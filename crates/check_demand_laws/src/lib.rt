// The demands on the checker as theorems: what a whole session answers, and what every call keeps. No code.
#![tactic(auto)]
