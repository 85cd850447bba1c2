// What is answered of three texts, as a whole: the line written, the final facts and numbers. Definitions, and the bench from its bytes; no code.
#![tactic(auto)]
