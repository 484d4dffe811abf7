// Polynomials over a field: definitions in specs/, laws in proofs/. There is no code here; the coder's functions compute with bytes.

#![tactic(auto)]
