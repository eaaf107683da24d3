// No code: what holds of a controller after any sequence of calls, and what follows from it at once.
#![tactic(auto)]
