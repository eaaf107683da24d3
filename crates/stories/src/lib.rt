// No code: what becomes of two rings at one sleeping vCPU, and of a pulse that arrives while its interrupt is served.
#![tactic(auto)]
