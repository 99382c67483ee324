// What a customer can read of the document's shelf, over every sequence of events: nothing lost, in order, the right street. It has no function of its own.
