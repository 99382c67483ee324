// That the promises are not empty. It has no function of its own.
