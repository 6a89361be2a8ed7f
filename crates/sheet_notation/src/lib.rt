// The loads of the notation over the definitions: texts that are not correct, texts that are, and cards that are written, proved by computed tests.
// The three tables are specs/Loads.antt, the tests proofs/Texts.antt. There are no functions.
#![tactic(auto)]
