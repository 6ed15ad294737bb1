// Theory only: a replica's bytes, written and read, in specs/.
#![tactic(auto)]
