// No code: an image and the state that it is of, held to each other on both ways.
#![tactic(auto)]
