// No code: calls one after another, as data: what a refusal is, what a call can touch, and what holds after any of them.
#![tactic(auto)]
