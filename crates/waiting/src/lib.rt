// How long a unit can wait for its grant: statements (specs/) and their proofs (proofs/). It has no function of its own.
