// No code: what a replayed record shows, of a sheet's listing and at each moment (specs/Film.antt).
#![tactic(auto)]
