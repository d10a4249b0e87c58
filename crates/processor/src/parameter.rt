// A parameter byte is taken: v is the byte.
#![tactic(auto, unfolding(crate::specs::Entry::next_of, crate::specs::Entry::parameter_taken))]

ghost use Rattle.std.specs.Prelude.{◌≡◌};
ghost use Rattle.registers.specs.Put.{put_progress};
ghost use Rattle.registers.specs.State.{state};
ghost use Rattle.processor.specs.Entry.{next_of, counted, parameter_taken};

use registers::{Command, Progress, Registers};

// One parameter more has been taken.
fn count(r: Registers) -> Registers
    ensures { result ≡ put_progress r (counted r.progress) }
{
    Registers {
        progress: Progress {
            next: next_of(r.progress.next),
            ..r.progress
        },
        ..r
    }
}

// Past the sixteenth, parameters are not told apart.
pub fn next_of(i: u8) -> u8
    ensures { result ≡ next_of i }
{
    i.saturating_add(1).min(registers::PARAMETERS)
}

// A parameter is taken.
pub fn parameter_taken(r: Registers, v: u8, mem: &mut [u16]) -> Registers
    ensures { state result mem.new ≡ parameter_taken v (state r mem.old) }
{
    let i = r.progress.next;
    let n = count(r);
    match r.progress.command {
        Command::Reset => Registers {
            video: parameters::sync_byte(n.video, i, v),
            ..n
        },
        Command::Cchar => Registers {
            video: parameters::cchar_byte(n.video, i, v),
            ..n
        },
        Command::Zoom => Registers {
            video: parameters::zoom_byte(n.video, i, v),
            ..n
        },
        Command::Curs => Registers {
            cursor: parameters::curs_byte(n.cursor, i, v),
            ..n
        },
        Command::Pram => parameters::ram_byte(n, i, v),
        Command::Pitch => parameters::pitch_byte(n, i, v),
        Command::Mask => Registers {
            cursor: parameters::mask_byte(n.cursor, i, v),
            ..n
        },
        Command::Figs => Registers {
            drawing: parameters::figs_byte(n.drawing, i, v),
            ..n
        },
        Command::Wdat(t) => wdat::wdat_taken(n, t, i, v, mem),
        Command::Nothing
        | Command::Vsync
        | Command::Start
        | Command::Figd
        | Command::Gchrd
        | Command::Curd
        | Command::Lprd
        | Command::Rdat(_)
        | Command::Unknown => n,
    }
}
