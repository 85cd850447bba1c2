// What a domain and a problem that were read are: tables that fit their rows, trees whose names are declared, no more cells and no longer prepared rows
// than bytes were read. Laws, no code.
#![tactic(auto)]
