// What a list of iters adds to an axis, as a linear form of an index's components, in runs, and where it is first far enough: definitions in specs/, laws in proofs/. There are no functions.
#![tactic(auto)]
