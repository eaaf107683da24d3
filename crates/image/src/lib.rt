// No code: the numbers of a state, and in which order they make its image.
#![tactic(auto)]
