#![tactic(auto)]
// What a page says in a part of the arena it says in the whole: laws only, in proofs/.
