#![tactic(auto)]
// No code: the definitions of `base` held to a second source, whole images of the Rust oracle, by computing.
