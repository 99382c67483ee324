// One event on a running shelf, as the contracts of `entry` say it, and when it is refused. It has no function of its own.
