#![tactic(auto)]
// What a page answers that was built from a list, over that list: ranges, searches, walks. Laws only, in proofs/.
