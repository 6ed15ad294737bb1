// Add, remove and reset over replica images.
#![tactic(auto)]
