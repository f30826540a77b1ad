// The address of a character's display byte.
ghost use Rattle.std.specs.Prelude.{◌≡◌};
ghost use Rattle.nick.specs.Slots.{font_address};
ghost use Rattle.blocks.specs.Modes.{bits_in};

use blocks::CodeWidth;

// The address of a character's display byte; LD2 gives the row of the font.
#[tactic(auto, unfolding(nick::specs::Slots::font_address))]
pub fn font_address(width: CodeWidth, ld2: u16, code: u8) -> u16
    ensures { result ≡ font_address (bits_in width) ld2 code }
{
    let width = u8::from(width);
    let rows = 1 << (16 - width);
    let characters = 1 << width;
    ld2 % rows * characters + u16::from(code) % characters
}
