// The three demands, each sentence as a theorem, in one place. It has no function of its own.
