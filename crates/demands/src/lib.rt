// What the rules together guarantee, stated in specs/ and proved in proofs/, a file for each under the same name: three demands, that anchors are a set, and
// that a contract admits a single outcome. The crate has no code.
#![tactic(auto)]
