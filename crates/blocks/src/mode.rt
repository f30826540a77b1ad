// The bits of MB by name: the video mode, the colour mode, VINT, VRES and RELOAD.
ghost use Rattle.std.specs.Prelude.{◌≡◌, ◌≤◌};
ghost use Rattle.nick.specs.Blocks.{vint, vres, reload};
ghost use Rattle.nick.specs.Slots.{CH, mode_number, mode_numbered, mode_of};
ghost use Rattle.nick.specs.Colour.{colour_number, colours_of};
ghost use Rattle.blocks.specs.Modes.{bits_in, mode_named, mode_number_in, colours_named, colour_number_in};
ghost use Rattle.blocks.specs.declared.mode.VideoMode.TheVariants.{Character};

use nick::Block;

// How many bits the codes of a character mode have.
#[derive(Clone, Copy, PartialEq, Eq)]
pub enum CodeWidth {
    Six = 6,
    Seven = 7,
    Eight = 8,
}

// What a slot fetches. The character modes CH256, CH128 and CH64 have codes of eight, seven and six bits.
#[derive(Clone, Copy, PartialEq, Eq)]
pub enum VideoMode {
    Vsync,
    Pixel,
    Attr,
    Character(CodeWidth),
    Unused,
    Lpixel,
}

// How many colours a display byte can show.
#[derive(Clone, Copy, PartialEq, Eq)]
pub enum ColourMode {
    Two,
    Four,
    Sixteen,
    All,
}

impl From<CodeWidth> for u8 {
    ghost from_gives = { λ width n. n ≡ bits_in width };

    fn from(width: CodeWidth) -> u8 {
        width as u8
    }
}

// The width of a character mode's codes, by the mode's number: CH256, CH128 and CH64 are 3, 4 and 5. It is apart, since
// `video_mode` has the three as a range.
#[tactic(auto, unfolding(nick::specs::Slots::mode_numbered))]
pub fn code_width(mode: u8) -> CodeWidth
    requires { (3 ≤ mode) × (mode ≤ 5) }
    ensures named { mode_numbered mode ≡ CH (bits_in result) }
    ensures numbered { mode_number_in (Character result) ≡ mode }
{
    match mode {
        3 => CodeWidth::Eight,
        4 => CodeWidth::Seven,
        _ => CodeWidth::Six,
    }
}

// The video mode: its number decides. The match over 0 to 7 with a range is a form that docs/DECISIONS.md 20 names.
#[tactic(auto, unfolding(nick::specs::Slots::mode_numbered))]
pub fn video_mode(block: Block) -> VideoMode
    ensures named { mode_named result ≡ mode_of block }
    ensures numbered { mode_number_in result ≡ mode_number block }
{
    let mode = block.mb / 2 % 8;
    match mode {
        0 => VideoMode::Vsync,
        1 => VideoMode::Pixel,
        2 => VideoMode::Attr,
        3..=5 => VideoMode::Character(code_width(mode)),
        6 => VideoMode::Unused,
        _ => VideoMode::Lpixel,
    }
}

// The colour mode: here its number becomes a case, and nothing else reads it.
#[tactic(auto, unfolding(nick::specs::Colour::colours_numbered))]
pub fn colour_mode(block: Block) -> ColourMode
    ensures named { colours_named result ≡ colours_of block }
    ensures numbered { colour_number_in result ≡ colour_number block }
{
    match block.mb / 32 % 4 {
        0 => ColourMode::Two,
        1 => ColourMode::Four,
        2 => ColourMode::Sixteen,
        _ => ColourMode::All,
    }
}

// Whether the block's scanlines hold VIRQ low. One function for each bit of MB that has a name (docs/DECISIONS.md 35).
pub fn has_vint(block: Block) -> bool
    ensures { result ≡ vint block }
{
    block.mb / 128 % 2 == 1
}

// Whether LD1 goes on from scanline to scanline of the mode line.
pub fn has_vres(block: Block) -> bool
    ensures { result ≡ vres block }
{
    block.mb / 16 % 2 == 1
}

// Whether the base follows the block.
pub fn has_reload(block: Block) -> bool
    ensures { result ≡ reload block }
{
    block.mb % 2 == 1
}
