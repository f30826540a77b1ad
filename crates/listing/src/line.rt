// The line of one block.
ghost use Rattle.std.specs.Prelude.{◌≡◌};
ghost use Rattle.nick.specs.Listing.{block_line, numbers_after_name};
ghost use Rattle.text.specs.Decimal.{tabbed};
ghost use Rattle.text.specs.Writing.{wrote};
ghost use Rattle.blocks.specs.Modes.{mode_named, colours_named};
ghost use Rattle.listing.specs.Modes.{name_of, count_of};

use blocks::{
    BlockNumber, CodeWidth, ColourMode, VideoMode, colour_mode, has_reload, has_vint, has_vres,
    video_mode,
};
use nick::Block;
use text::{TAB, Writer};

// The name of a video mode. No Display: the writer takes bytes, and counts those past its end.
#[tactic(auto, unfolding(crate::specs::Modes::name_of))]
fn name(mode: VideoMode) -> &'static str
    ensures { result.now ≡ name_of (mode_named mode) }
{
    match mode {
        VideoMode::Vsync => "VSYNC",
        VideoMode::Pixel => "PIXEL",
        VideoMode::Attr => "ATTR",
        VideoMode::Character(CodeWidth::Eight) => "CH256",
        VideoMode::Character(CodeWidth::Seven) => "CH128",
        VideoMode::Character(CodeWidth::Six) => "CH64",
        VideoMode::Unused => "UNUSED",
        VideoMode::Lpixel => "LPIXEL",
    }
}

// The number of colours.
#[tactic(auto, unfolding(crate::specs::Modes::count_of))]
fn colours(mode: ColourMode) -> usize
    ensures { result ≡ count_of (colours_named mode) }
{
    match mode {
        ColourMode::Two => 2,
        ColourMode::Four => 4,
        ColourMode::Sixteen => 16,
        ColourMode::All => 256,
    }
}

// The eight colours as numbers.
fn palette(block: Block) -> [usize; 8]
    ensures { result ≡ block.col }
{
    block.col.map(usize::from)
}

// The numbers of a block's line that stand after the mode name, the eight colours last.
#[tactic(auto, using(text::proofs::Writing::writing, crate::proofs::Pieces::numbers_text))]
fn put_numbers(writer: &mut Writer<'_>, block: Block)
    ensures { writer.new ≡ wrote writer.old (tabbed (numbers_after_name block)) }
{
    writer.put_fields(&[
        colours(colour_mode(block)),
        usize::from(has_vres(block)),
        usize::from(has_vint(block)),
        usize::from(has_reload(block)),
        usize::from(block.lm),
        usize::from(block.rm),
        usize::from(block.start.ld1),
        usize::from(block.start.ld2),
    ]);
    writer.put_fields(&palette(block));
}

// The line of a block with this number.
#[tactic(auto, using(text::proofs::Writing::writing, crate::proofs::Pieces::line_text))]
pub fn put_block(writer: &mut Writer<'_>, number: BlockNumber, block: Block)
    ensures { writer.new ≡ wrote writer.old (block_line number.value block) }
{
    writer.put_decimal(number.address());
    writer.put_field(256 - usize::from(block.sc));
    writer.put_byte(TAB);
    writer.put_bytes(name(video_mode(block)).as_bytes());
    put_numbers(writer, block);
    writer.put_byte(b'\n');
}
