#![tactic(auto)]
// What the public builds built says what they were handed: the calls' own definitions and the page's meaning. Laws only, in proofs/.
