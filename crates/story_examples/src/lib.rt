// No code: a controller and calls for which the hypotheses of each story hold.
#![tactic(auto)]
