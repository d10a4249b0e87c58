// The pattern of a graphics character that GCHRD draws.
#![tactic(auto, unfolding(crate::specs::Character::character_pattern, dots::specs::Bit::bit, registers::specs::Size::factor_of))]

ghost use Rattle.std.specs.Prelude.{◌≡◌, ◌<◌};
ghost use Rattle.registers.specs.Size.{factor_of};
ghost use Rattle.figures.specs.Character.{character_pattern};

// The pattern bit of dot `column` of a row, for all masked bits.
fn character_pattern(ram: [u8; 16], g: u32, row: u32, column: u32) -> u16
    requires { 0 < g }
    ensures { result ≡ character_pattern ram g row column }
{
    let byte = ram[15 - (row / g % 8) as usize];
    ((byte as u32 >> (column / g % 8)) % 2 * 65535) as u16
}

// The same by ZOOM, whose factor is at least 1.
pub fn zoomed_pattern(ram: [u8; 16], zoom: u8, row: u32, column: u32) -> u16
    ensures { result ≡ character_pattern ram (factor_of zoom) row column }
{
    character_pattern(ram, registers::factor_of(zoom), row, column)
}
