// No code: the controller's arc with a circle's registers is the midpoint circle (specs/Midpoint.antt), and the dots that it draws.
#![tactic(auto)]
