#![tactic(auto)]
// What two pages read one behind the other list: laws only, in proofs/.
