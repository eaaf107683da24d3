// No code: the level of a vCPU's interrupt line, what IAR gives, and wake sets, held to one another over every call.
#![tactic(auto)]
