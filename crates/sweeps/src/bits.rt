// The dots of an arc whose mask is one bit, by its place.
ghost use Rattle.std.specs.Prelude.{◌≡◌, ◌-◌, ◌<◌};
ghost use Rattle.passes.specs.Place.{Stands};
ghost use Rattle.sweeps.specs.Sweep.{swept, arc_walk};
ghost use Rattle.sweeps.specs.Curve.{curve_at, curve_on};

use arcs::Moving;
use passes::Place;
use walks::Brush;
use walks::bits::stride;
use walks::pace::{self, Pace};

// An arc's place, and what a move along the axis adds to its bit address.
#[derive(Clone, Copy)]
struct Curve {
    place: Place,
    axis: u64,
}

impl Pace for Curve {
    ghost at = { curve_at };

    ghost on = { curve_on };

    fn address(self) -> u32 {
        (self.place.at % 4194304) as u32
    }

    fn step(self) -> Curve {
        Curve {
            place: passes::place_on(self.axis, self.place),
            ..self
        }
    }
}

// Dots of an arc from dot i on, which stands at the bit address at, before dot end.
pub(crate) fn arc_bits(mem: &mut [u16], b: Brush, m: Moving, at: u32, i: u32, end: u32) -> Moving
    requires { (at < 4194304) × Stands m at }
    ensures { swept result mem.new ≡ arc_walk b (end - i) i m mem.old }
{
    let dir = b.drawing.dir;
    let axis = stride(figures::figure::axis_of(dir), b.pitch);
    let diagonal = stride(figures::figure::diagonal_of(dir), b.pitch);
    let from = Curve {
        place: passes::place_of(diagonal, at, m.running),
        axis: axis as u64,
    };
    passes::standing(pace::walk(mem, b.stroke(), from, i, end).place)
}
