// No code: what two writes to the Distributor come to, for whoever merges them or changes their order.
#![tactic(auto)]
