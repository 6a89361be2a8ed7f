// The far ends of a card, and that nothing lies beyond them: definitions in specs/, laws in proofs/. There are no functions.
#![tactic(auto)]
