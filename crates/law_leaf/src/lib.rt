#![tactic(auto)]
// What a build wrote is what a reader reads: leaf pages with their history. Laws only, in proofs/.
