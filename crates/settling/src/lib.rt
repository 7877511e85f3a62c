// No code: what it is that a contract settles the outcome of a function, and the laws by which that is shown.
#![tactic(auto)]
