// CRC-32 as ITU-T V.42 (8.1.1.6.2) defines it, and what the definition means: a remainder of polynomials, and the complement of a shift
// register. All of it stands in specs/ and proofs/: the crate has no code. `crc` computes it.
#![tactic(auto)]
