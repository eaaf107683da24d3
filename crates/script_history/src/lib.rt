// No code: a script of the runner is a history of calls, so what holds after every history holds after every
// script that a setup begins; before it every call but a setup answers 6.
#![tactic(auto)]
