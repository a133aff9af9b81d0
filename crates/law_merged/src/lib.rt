#![tactic(auto)]
// What pages say that were merged, and merged again: the records that were handed in. Laws only, in proofs/.
