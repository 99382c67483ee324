// The promises: statements (specs/) and their proofs (proofs/), over the rooms above. No code of its own.
