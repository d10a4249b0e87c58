// No code: entries sent to the controller one at a time (specs/Send.antt), and what becomes of its registers and its memory (proofs/).
#![tactic(auto)]
