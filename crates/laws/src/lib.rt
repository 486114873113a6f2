#![tactic(auto)]

// Theorems about the definitions of `rules` that more than one crate cites. There is no code here.
