// No code: what waits for a vCPU waits until it is given, or is taken back by a call that says so.
#![tactic(auto)]
