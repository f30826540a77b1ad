// The sixteen dots that a slot's cells show: each cell by runs of dots from the palette, and external colour over them.
ghost use Rattle.std.specs.Prelude.{◌≡◌, ◌*◌, ◌<◌, ◌≤◌, ℕ, length};
ghost use Rattle.nick.specs.Slots.{mode_of};
ghost use Rattle.colour.specs.Cell.{cell_pixel};
ghost use Rattle.slots.specs.Shows.{runs, two_shown, four_shown, sixteen_shown, pixel_shown, mixed_shown, plain_dots, shown_dots, cells_dots};

use blocks::ColourMode;
use colour::{Cell, LineColours, bit_of, external_wins, four_index, pixel_at, sixteen_index};
use fetch::Cells;
use nick::Registers;

// Shows `n` pixels, each in `run` dots; `shown` gives the colour of pixel k, and `colour_at` says which. Of the dots that
// chunks_exact_mut leaves std says nothing. Inlined with its callers, so that the lengths of the runs are constants: else painting
// takes up to twice the instructions.
#[tactic(auto, using(crate::proofs::Runs::runs_more))]
#[inline(always)]
fn show_pixels<F: Fn(u8) -> u8>(n: usize, run: usize, out: &mut [u8], shown: F)
    ghost colour_at: { ℕ → ℕ }
    requires size { (n ≤ 8) × (run ≤ 8) × (length out.old ≡ n * run) }
    requires callable { (k : ℕ) → k < n → F.pre shown k }
    requires colours { (k r : ℕ) → k < n → F.post shown k r → r ≡ colour_at k }
    ensures { out.new ≡ runs colour_at n run }
{
    for k in 0..n {
        out[k * run..k * run + run].fill(shown(k as u8));
    }
}

// Shows a cell by the palette, each eighth of it in `run` dots, at most 2 by a clause: as a const parameter it would need the same one.
// The closures hold values: at three references the proof's search gives up.
#[tactic(auto, using(colour::proofs::Weights::four_below, colour::proofs::Weights::sixteen_below, crate::proofs::Runs::two_dots, crate::proofs::Runs::four_dots, crate::proofs::Runs::sixteen_dots, crate::proofs::Runs::all_dots))]
#[inline(always)]
fn show_plain(palette: &[u8; 16], cell: Cell, run: usize, out: &mut [u8])
    requires { (run ≤ 2) × (length out.old ≡ 8 * run) }
    ensures { out.new ≡ plain_dots palette.now cell run }
{
    let byte = cell.byte;
    match cell.colours {
        ColourMode::Two => {
            let clear = palette[(cell.low % 16) as usize];
            let set = palette[(cell.high % 16) as usize];
            let shown = move |k| if bit_of(byte, 7 - k) == 0 { clear } else { set };
            show_pixels(8, run, out, shown)
        }
        ColourMode::Four => {
            let shown = move |k: u8| -> u8
                requires { k < 4 }
                ensures { result ≡ four_shown palette.entry.now byte k }
            { palette[four_index(byte, k) as usize] };
            show_pixels(4, 2 * run, out, shown)
        }
        ColourMode::Sixteen => {
            let shown = move |k: u8| -> u8
                requires { k < 2 }
                ensures { result ≡ sixteen_shown palette.entry.now byte k }
            { palette[sixteen_index(byte, k) as usize] };
            show_pixels(2, 4 * run, out, shown)
        }
        ColourMode::All => out.fill(byte),
    }
}

// Shows external colour over a dot where it wins; the dot shows the eighth `at` of the cell. colour's `mixed_colour` by the palette,
// which is taken once a scanline. Where bit 7 of the external byte is
// clear, no pixel is needed.
#[tactic(auto, unfolding(crate::specs::Shows::mixed_shown))]
fn mix(registers: Registers, palette: &[u8; 16], cell: Cell, at: u8, external: u8, dot: &mut u8)
    requires { (at < 8) × (dot.old ≡ pixel_shown palette.now (cell_pixel cell at)) }
    ensures { dot.new ≡ mixed_shown registers palette.now (cell_pixel cell at) external }
{
    if 128 <= external && external_wins(registers, pixel_at(cell, at), external) {
        *dot = palette[(external % 16) as usize];
    }
}

// Shows external colour over the dots of a cell where it wins; the external byte of dot j is number `from` + j. It takes what it
// needs of the colours: lent all of them, painting takes up to 2 % more instructions.
#[tactic(auto, using(crate::proofs::Cells::eighth_below, crate::proofs::Cells::plain_at), unfolding(crate::specs::Shows::shown_dots))]
fn show_external(
    registers: Registers,
    palette: &[u8; 16],
    cell: Cell,
    run: usize,
    out: &mut [u8],
    external: &[u8],
    from: u16,
)
    requires size { (1 ≤ run) × (run ≤ 2) × (length out.old ≡ 8 * run) }
    requires plain { out.old ≡ plain_dots palette.now cell run }
    ensures { out.new ≡ shown_dots registers palette.now cell run external.now from }
{
    for (j, dot) in out.iter_mut().enumerate() {
        let external = external.get(usize::from(from) + j).copied().unwrap_or(0);
        mix(registers, palette, cell, (j / run) as u8, external, dot);
    }
}

// Shows a cell, each eighth of it in `run` dots.
#[tactic(auto, using(crate::proofs::Cells::plain_shown))]
#[inline(always)]
fn show_cell(
    colours: &LineColours,
    cell: Cell,
    run: usize,
    out: &mut [u8],
    external: &[u8],
    from: u16,
)
    requires { (1 ≤ run) × (run ≤ 2) × (length out.old ≡ 8 * run) }
    ensures { out.new ≡ shown_dots colours.now.registers colours.now.palette cell run external.now from }
{
    show_plain(&colours.palette, cell, run, out);
    if !external.is_empty() {
        show_external(
            colours.registers,
            &colours.palette,
            cell,
            run,
            out,
            external,
            from,
        );
    }
}

// Shows the sixteen dots of a slot; `external` has the scanline's bytes, since with the slot's own slice of them painting takes up to
// 20 % more instructions.
#[tactic(auto, using(crate::proofs::Cells::nothing_dots, crate::proofs::Cells::whole_dots, crate::proofs::Cells::halves_dots))]
pub fn show(colours: &LineColours, cells: Cells, out: &mut [u8], external: &[u8], slot: u8)
    requires { length out.old ≡ 16 }
    ensures { out.new ≡ cells_dots colours.now.registers colours.now.block (mode_of colours.now.block) cells external.now (16 * slot) }
{
    let from = 16 * u16::from(slot);
    match cells {
        Cells::Nothing => out.fill(fetch::unfetched(colours.registers, colours.block)),
        Cells::Whole(cell) => show_cell(colours, cell, 2, out, external, from),
        Cells::Halves(first, second) => {
            let (left, right) = out.split_at_mut(8);
            show_cell(colours, first, 1, left, external, from);
            show_cell(colours, second, 1, right, external, from + 8);
        }
    }
}
