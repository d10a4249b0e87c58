// The register set from plain numbers, and back.
ghost use Rattle.std.specs.Prelude.{◌≡◌};
ghost use Rattle.plain.specs.Mirror.{from_plain, to_plain};

use super::{PlainRegisters, numbers};
use registers::Registers;

impl From<PlainRegisters> for Registers {
    ghost from_gives = { λ p r. r ≡ from_plain p };

    #[tactic(auto, unfolding(crate::specs::Mirror::from_plain))]
    fn from(p: PlainRegisters) -> Registers {
        let ram = p.ram;
        Registers {
            cursor: p.cursor.into(),
            pitch: p.pitch,
            drawing: p.drawing.into(),
            op: p.op.into(),
            ram,
            video: p.video.into(),
            pen: p.pen.into(),
            mode: numbers::mode_of(p.mode),
            buffer: p.buffer.into(),
            progress: p.progress.into(),
            work: p.work.into(),
            remaining: p.remaining,
            board: p.board.into(),
        }
    }
}

impl From<Registers> for PlainRegisters {
    ghost from_gives = { λ r p. p ≡ to_plain r };

    #[tactic(auto, unfolding(crate::specs::Mirror::to_plain))]
    fn from(r: Registers) -> PlainRegisters {
        let ram = r.ram;
        PlainRegisters {
            cursor: r.cursor.into(),
            pitch: r.pitch,
            drawing: r.drawing.into(),
            op: r.op.into(),
            ram,
            video: r.video.into(),
            pen: r.pen.into(),
            mode: numbers::mode_number(r.mode),
            buffer: r.buffer.into(),
            progress: r.progress.into(),
            work: r.work.into(),
            remaining: r.remaining,
            board: r.board.into(),
        }
    }
}
