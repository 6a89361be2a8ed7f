// Which canonical layouts are approved: theorems alone, in proofs/Theorems.antt; proofs/Figures.antt has source document 001's figures.
// There are no functions.
// The figures of 512 and 1,024 elements are approved by the theorem on packed layouts, for every table that is long enough, and not by a run that is computed.
#![tactic(auto)]
