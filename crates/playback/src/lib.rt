#![tactic(auto)]

// Playback of an engraved staff, and the proof-reader's verdict on it: theorems about the definitions of `rules`. There is no code here.
