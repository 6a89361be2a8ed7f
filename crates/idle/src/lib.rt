// Idle copies, two different replica combinations that give the same sum on every axis, and the admission that refuses them. There are no functions.
#![tactic(auto)]
