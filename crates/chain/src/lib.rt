// No code: the meaning and the laws of a chain of steps, which every walk over bytes here is an instance of.
#![tactic(auto)]
