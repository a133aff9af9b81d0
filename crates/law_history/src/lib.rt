#![tactic(auto)]
// What a build wrote is what a reader reads: remote frames and history pages. Laws only, in proofs/.
