// No code: a level line that its device holds, and a driver that clears its pending bit.
#![tactic(auto)]
