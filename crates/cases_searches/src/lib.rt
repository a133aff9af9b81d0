#![tactic(auto)]
// No code: order 3's worked answers to probes from elsewhere, computed by the definitions of `sst`, `asof` and `overlay` on pages that the Rust built.
