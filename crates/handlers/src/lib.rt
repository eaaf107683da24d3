// No code: what may interrupt a handler, by the binary point that it was given under.
#![tactic(auto)]
