// Each kind of warp fragment is a layout: its card in specs/Layouts.antt, the theorems in proofs/. There are no functions.
// Where each register's element goes and how many cells are occupied are computed, once over the kinds; whose a cell is follows from demand_3_unmarked and where
// the element goes.
#![tactic(auto)]
