// The text listing of the line parameter table.
#![tactic(auto)]

mod line;

ghost use Rattle.std.specs.Prelude.{◌≡◌, ◌≤◌, length as List·length};
ghost use Rattle.std.proofs.lemmas.List.Edits.{sets};
ghost use Rattle.nick.specs.Listing.{block_lines, blocks_listed, listing};
ghost use Rattle.text.specs.Writing.{wrote};
ghost use Rattle.listing.specs.WrittenLines.{word_line};
ghost use Rattle.listing.specs.ListCall.{Lists};

use blocks::{base_number, block_at, has_reload};
use line::put_block;
use nick::{Ram, Refusal, Registers};
use text::Writer;

// How many blocks the table has room for.
const BLOCKS: u16 = 4096;

// What a listing starts with: byte strings, as document 01 has them (docs/DECISIONS.md 20).
pub const HEADER: [u8; 10] = *b"NICKTABLE\t";

// What its last line starts with.
pub const END: [u8; 4] = *b"END\t";

// The number of blocks from the base up to the first with RELOAD, at most 4,096. With `find` over the numbers the check leaves the
// answer open.
#[tactic(auto, using(crate::proofs::BlocksLeft::listed_after, crate::proofs::BlocksLeft::after_reload, crate::proofs::BlocksLeft::after_more, crate::proofs::BlocksLeft::after_all))]
fn blocks_listed(registers: Registers, ram: &Ram) -> u16
    ensures { (result ≡ blocks_listed registers ram.now) × (result ≤ 4096) }
{
    let base = base_number(registers);
    for k in 0..BLOCKS {
        if has_reload(block_at(ram, base.after(k))) {
            return k + 1;
        }
    }
    BLOCKS
}

// A word with its tab, and a number, on a line.
#[tactic(auto, using(text::proofs::Writing::writing), unfolding(crate::specs::WrittenLines::word_line))]
fn put_word_line(writer: &mut Writer<'_>, word: &[u8], n: usize)
    ensures { writer.new ≡ wrote writer.old (word_line word.now n) }
{
    writer.put_bytes(word);
    writer.put_decimal(n);
    writer.put_byte(b'\n');
}

// The lines of the blocks that are listed; answers how many they are. By number: 0 comes after 4,095.
#[tactic(auto, using(text::proofs::Writing::writing, crate::proofs::FirstLines::lines_more))]
fn put_lines(writer: &mut Writer<'_>, registers: Registers, ram: &Ram) -> u16
    ensures count { result ≡ blocks_listed registers ram.now }
    ensures lines { writer.new ≡ wrote writer.old (block_lines registers ram.now result) }
{
    let base = base_number(registers);
    let count = blocks_listed(registers, ram);
    for k in 0..count {
        let number = base.after(k);
        put_block(writer, number, block_at(ram, number));
    }
    count
}

// The whole listing.
#[tactic(auto, using(text::proofs::Writing::writing, crate::proofs::Pieces::listing_text))]
fn put_listing(writer: &mut Writer<'_>, registers: Registers, ram: &Ram)
    ensures { writer.new ≡ wrote writer.old (listing registers ram.now) }
{
    put_word_line(writer, &HEADER, base_number(registers).address());
    let count = put_lines(writer, registers, ram);
    put_word_line(writer, &END, usize::from(count));
}

// Writes as much of the listing as the output holds, and answers the whole listing's length, which the writer can count
// (proofs/Length).
#[tactic(auto, using(crate::proofs::Length::listing_bound, text::proofs::Writing::wrote_whole))]
fn write_listing(out: &mut [u8], registers: Registers, ram: &Ram) -> usize
    ensures text { result ≡ List·length (listing registers ram.now) }
    ensures output { out.new ≡ sets out.old 0 (listing registers ram.now) }
{
    let mut writer = Writer::new(out);
    put_listing(&mut writer, registers, ram);
    writer.end()
}

// Writes the listing of the line parameter table that starts at the base block, and answers its length, as the rules do (`list_answer`).
#[tactic(auto, using(text::proofs::Writing::sets_start), unfolding(nick::specs::Listing::list_answer, nick::specs::Listing::list_output, nick::specs::Refusals::listing_refusal))]
pub fn list(registers: Registers, ram: &[u8], out: &mut [u8]) -> Result<usize, Refusal>
    ensures { Lists registers ram.now out.old result out.new }
{
    let ram = refusals::whole(ram)?;
    // Over no bytes, the writer only counts.
    let length = write_listing(&mut [], registers, ram);
    if out.len() < length {
        return Err(Refusal::OutputLength);
    }
    Ok(write_listing(out, registers, ram))
}
