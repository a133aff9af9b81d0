#![tactic(auto)]
// No code: the definitions of `delta` and `overlay` held to a second source, answers of the Rust oracle, by computing.
