// Theory only: what a replica is, what each operation does to it, and the laws, in specs/.
#![tactic(auto)]
