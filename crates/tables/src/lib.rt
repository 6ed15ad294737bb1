// Theory only: orders, sorted tables and what a loop over them needs, in specs/.
#![tactic(auto)]
