// Plans over prepared actions are read and run as over the actions. Laws, no code.
#![tactic(auto)]
