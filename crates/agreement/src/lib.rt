// The owner of a cell and the placement of an element say the same, both ways: theorems alone, in proofs/Theorems.antt. There are no functions.
// It speaks of both promises, and neither judgement nor placement_judged needs the other; on the sheet, which rests on both, it would be rechecked with every load.
#![tactic(auto)]
