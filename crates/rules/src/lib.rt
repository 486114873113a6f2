#![tactic(auto)]

// Document 01 as definitions: specs/ holds them, one file a section. There is no code here. proofs/ shows that the table of kinds reads each word
// as the two standards mean it, and which number is given at the limits.
