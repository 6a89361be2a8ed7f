// Laws on numbers, lists and ladders of checks that more than one crate needs, in proofs/. There are no functions.
#![tactic(auto)]
