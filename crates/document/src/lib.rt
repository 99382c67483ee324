// The document's shelf: what document 01 says of a shelf, without a card and without a byte of memory or store. It has no function of its own.
