// That the shelf is the document's shelf: statements (specs/) and their proofs (proofs/). It has no function of its own.
