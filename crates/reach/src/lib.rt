// No code: how far a call reaches into the lent words, whatever they hold.
#![tactic(auto)]
