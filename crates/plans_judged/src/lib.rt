// What two cards and a plan between them come to, in the order of checks: the answers to checking a carrier's plan and to writing one.
// Definitions are in specs/, theorems in proofs/. There are no functions.
#![tactic(auto)]
