// The three demands as theorems about the calls of the code, from their contracts alone: no code.
#![tactic(auto)]
