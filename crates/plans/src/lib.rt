// A carrier's plan over any two tables of owners: its copies in order, the first copy outside, the first wrong cell, the planner's plan.
// Definitions are in specs/, laws in proofs/. There are no functions.
#![tactic(auto)]
