// What the verdict and the owner of a cell mean without a definition that tests: demand 3 in inequalities and whole numbers, and each number by itself.
// The theorems are in proofs/PlainDemand.antt and proofs/EachNumber.antt. There are no functions.
// A crate of its own, with no wrong answers to try: in judgement it would be checked with each of that crate's edits.
#![tactic(auto)]
