// What a choice of bv means, in words of the page: stated in specs/, proved in proofs/ under the same names. The crate has no code.
#![tactic(auto)]
