// No code: the laws of the controller's definitions (proofs/).
#![tactic(auto)]
