#![tactic(auto)]
// What a page holds, as entries: the definitions, in specs/, and laws, in proofs/.
