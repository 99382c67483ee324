// What the lines of a table say, and the memory and the shelf that they make: definitions and laws alone (specs/, proofs/).
