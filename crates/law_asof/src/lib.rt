#![tactic(auto)]
// What a page answers as of a version, over the list that it was built or merged from. Laws only, in proofs/.
