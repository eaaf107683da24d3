// No code: the small steps that calls are made of, and what each of them keeps.
#![tactic(auto)]
