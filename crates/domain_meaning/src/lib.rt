// What a domain and a problem are, and how they are read: the definitions stand in specs/.
#![tactic(auto)]
