// General laws on lists, masks and counting that the rules and the code share: no code.
#![tactic(auto)]
