// The numbers of a circle that its arcs are sent with. The circle itself is a shape of crate geometry, its arcs are in specs/Circle.antt.
#![tactic(auto)]

ghost use Rattle.std.specs.Prelude.{◌≡◌};
ghost use Rattle.circles.specs.Circle.{largest, coincide};

// The largest i with 2i² at most r².
pub fn largest_of(r: u16) -> u16
    ensures { result ≡ largest r }
{
    (u32::from(r) * u32::from(r) / 2).isqrt() as u16
}

// Whether the octants' last dots coincide on the diagonal.
pub fn coincides(r: u16) -> bool
    ensures { result ≡ coincide r }
{
    let limit = u64::from(r) * u64::from(r);
    let i = u64::from(largest_of(r));
    limit <= 2 * (i * i) + i
}
