// No code: the scope document's corner list, computed.
#![tactic(auto)]
