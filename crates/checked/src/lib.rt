// What the check of an image tells its callers. See proofs/Known.antt.
#![tactic(auto)]
