// No code: a guest that is moved cannot tell, and nothing that waits for it is lost.
#![tactic(auto)]
