// The claims of the library: theorems over the promises of its calls.
#![tactic(auto)]
