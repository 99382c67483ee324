// Polynomials over two elements: definitions and laws alone (specs/, proofs/), which the two header checks share.
