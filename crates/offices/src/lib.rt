// Theory only: offices, each with a replica, that merge one another's: operations that come again or elsewhere, and what all of them then have. Its laws
// stand on those of replica; its definitions are in specs/, its theorems in proofs/.
#![tactic(auto)]
