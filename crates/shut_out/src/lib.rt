// No code: the controllers that the promises shut out, as theorems about the definitions of the calls.
#![tactic(auto)]
