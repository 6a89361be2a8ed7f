// What a C caller's arrays hold after dealing and collecting: the bits that were dealt come back, proofs/Arrays.antt, and read as holdings they are
// what the questions over holdings fill, proofs/Holdings.antt. There are no functions.
#![tactic(auto)]
