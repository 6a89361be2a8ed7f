// What two typed lines come to, in the order of checks: definitions in specs/, theorems in proofs/. There are no functions.
#![tactic(auto)]
