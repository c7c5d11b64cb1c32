//! Facts of lists, booleans, options and results, and finite maps as lists of pairs. There is no code.
#![tactic(auto)]
