// Which way a line goes, and how far: its direction, its larger distance and its smaller one.
ghost use Rattle.std.specs.Prelude.{◌≡◌};
ghost use Rattle.entries.specs.Entries.{dir_of, slope_of};

use crate::Slope;
use records::Point;

// The smallest direction that fits.
fn direction(a: Point, b: Point) -> u8
    ensures { result ≡ dir_of a b }
{
    let dx = a.x.abs_diff(b.x);
    let dy = a.y.abs_diff(b.y);
    let right = a.x <= b.x;
    let left = b.x <= a.x;
    let down = a.y <= b.y;
    let up = b.y <= a.y;
    let tall = dx <= dy;
    let wide = dy <= dx;
    if right & down & tall {
        return 0;
    }
    if right & down & wide {
        return 1;
    }
    if right & up & wide {
        return 2;
    }
    if right & up & tall {
        return 3;
    }
    if left & up & tall {
        return 4;
    }
    if left & up & wide {
        return 5;
    }
    if left & down & wide {
        return 6;
    }
    7
}

pub fn slope_of(a: Point, b: Point) -> Slope
    ensures { result ≡ slope_of a b }
{
    let x = a.x.abs_diff(b.x);
    let y = a.y.abs_diff(b.y);
    Slope {
        dir: direction(a, b),
        major: x.max(y),
        minor: x.min(y),
    }
}
