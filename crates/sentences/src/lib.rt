// Document 01, sentence by sentence: what each event does to any sound state, any memory and any store, in the paper's own numbers. It has no function of its own.
