// No code: what an acknowledge, EOIR and DIR leave behind, as theorems about their definitions. Sequences of calls stand on them.
#![tactic(auto)]
