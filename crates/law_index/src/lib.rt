#![tactic(auto)]
// What a build wrote is what a reader reads: index pages. Laws only, in proofs/.
