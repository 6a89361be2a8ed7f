// Document 01's starred loads as one table over the definitions: specs/Loads.antt, proved by one computed test in proofs/Sheet.antt.
// There are no functions.
#![tactic(auto)]
