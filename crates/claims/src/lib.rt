// Who claims which cell, over any layout: definitions in specs/, laws in proofs/. There are no functions.
#![tactic(auto)]
