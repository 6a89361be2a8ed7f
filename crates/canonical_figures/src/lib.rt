// The loads of the canonical layouts as one table over the definitions: source document 001's figures and the checks of request 7, proved by one computed test.
// The table is specs/Loads.antt, the test proofs/Figures.antt. There are no functions.
#![tactic(auto)]
