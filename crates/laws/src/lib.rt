// No code: theorems over the definitions that the contracts cite, so over what the functions answer.
#![tactic(auto)]
