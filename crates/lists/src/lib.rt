// A list of entries is sent to the controller by one call, with a run after each.
#![tactic(auto)]

ghost use Rattle.std.specs.Prelude.{◌≡◌, true, min, ◌≤◌, length, drop};
ghost use Rattle.registers.specs.Fresh.{empty_buffer};
ghost use Rattle.registers.specs.Put.{put_buffer};
ghost use Rattle.registers.specs.Sound.{sound_b};
ghost use Rattle.registers.specs.State.{state};
ghost use Rattle.settings.specs.Settings.{put_settings, settings_of, settled};
ghost use Rattle.units.specs.Run.{length_b};
ghost use Rattle.sends.specs.Sends.{listed, most_listed, list_taken, list_sent};
ghost use Rattle.lists.specs.Quick.{begun_by, set_at, first_sent};

use registers::{Registers, Video};
use sends::Listed;
use settings::{Settings, Settled};

// The settings of a register set.
fn settings_of(r: Registers) -> Settings
    ensures { result ≡ settings_of r }
{
    let ram = r.ram;
    Settings {
        board: r.board,
        cursor: r.cursor,
        pitch: r.pitch,
        drawing: r.drawing,
        op: r.op,
        ram,
        zoom: r.video.zoom,
        progress: r.progress,
    }
}

// The registers with these settings, and an empty buffer.
fn with_settings(r: Registers, p: Settings) -> Registers
    ensures { result ≡ put_settings (put_buffer r empty_buffer) p }
{
    let ram = p.ram;
    Registers {
        cursor: p.cursor,
        pitch: p.pitch,
        drawing: p.drawing,
        op: p.op,
        ram,
        video: Video {
            zoom: p.zoom,
            ..r.video
        },
        buffer: processor::command::no_entries(),
        progress: p.progress,
        board: p.board,
        ..r
    }
}

// An entry is taken at once, and what it began is run.
fn begin(r: Registers, e: u16, mem: &mut [u16]) -> Listed
    ensures { listed result mem.new ≡ begun_by e (state r mem.old) }
{
    let waiting = Registers {
        buffer: processor::command::no_entries(),
        ..r
    };
    let t = processor::entry_taken(waiting, e, mem);
    let q = units::run_on(t, mem, u32::MAX - 1);
    Listed {
        number: 0,
        taken: 1,
        units: q.count as u64 + 1,
        regs: q.regs,
    }
}

// The entries from k on that only set registers, e being the first, where the controller takes e at once.
fn set_at(r: Registers, e: u16, entries: &[u16], k: usize, mem: &mut [u16]) -> Settled
    ensures { settled result mem.new ≡ set_at e (drop k entries.now) (state r mem.old) }
{
    let p = settings_of(r);
    if sends::at_once(r.mode, r.work, r.buffer.count, e) {
        return settings::settle(r.video.sync[0], p, entries, k, mem);
    }
    Settled {
        settings: p,
        count: 0,
    }
}

// One entry: it is taken at once, else it goes to its port.
fn send_first(r: Registers, e: u16, mem: &mut [u16]) -> Listed
    ensures { listed result mem.new ≡ first_sent e (state r mem.old) }
{
    if sends::at_once(r.mode, r.work, r.buffer.count, e) {
        return begin(r, e, mem);
    }
    sends::send_one(r, e, mem)
}

// The entries in order, up to the first that its port refuses.
fn send_on(r: Registers, entries: &[u16], mem: &mut [u16]) -> Listed
    requires { (sound_b r ≡ true) × ((length_b r.board.wiring (length mem.old) ≡ true) × (length entries.now ≤ most_listed)) }
    ensures { listed result mem.new ≡ list_taken (state r mem.old) entries.now }
{
    let mut s = r;
    let mut units: u64 = 0;
    let mut k: usize = 0;
    while k < entries.len() {
        let e = entries[k];
        let set = set_at(s, e, entries, k, mem);
        if 0 < set.count {
            s = with_settings(s, set.settings);
            units += set.count as u64;
            k += set.count;
        } else {
            let q = send_first(s, e, mem);
            if q.number != 0 {
                return Listed {
                    number: q.number,
                    taken: k as u64,
                    units,
                    regs: s,
                };
            }
            units += q.units;
            s = q.regs;
            k += q.taken as usize;
        }
    }
    Listed {
        number: 0,
        taken: k as u64,
        units,
        regs: s,
    }
}

// At most so many entries of a list are looked at.
const MOST_LISTED: usize = 4294967295;

// How many entries of a list are looked at.
fn looked_at(all: usize) -> usize
    ensures { result ≡ min most_listed all }
{
    all.min(MOST_LISTED)
}

// A list of entries: the run's refusals 1 and 2, else the entries.
pub fn send_all(r: Registers, entries: &[u16], mem: &mut [u16]) -> Listed
    ensures { listed result mem.new ≡ list_sent (state r mem.old) entries.now }
{
    if let Err(why) = units::accepted(r, mem.len()) {
        return Listed {
            number: u8::from(why),
            taken: 0,
            units: 0,
            regs: r,
        };
    }
    let n = looked_at(entries.len());
    send_on(r, &entries[..n], mem)
}
