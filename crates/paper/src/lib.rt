// Document 01 in its own numbers and words, and the proofs that the rooms' own definitions are these. No code.
