// No code: demand 3, the picture is what the figures say. The statement is specs/Shown.antt and the last law of proofs/Whole.antt.
#![tactic(auto)]
