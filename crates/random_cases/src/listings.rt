// Family "listings" of second/README.md: listings of the line parameter table.
ghost use Rattle.std.specs.Prelude.{◌≤◌};

use cases::{Case, Family, LongRam, Report, draw_plain_ram, no_reload};
use nick::Registers;

// The family.
pub const FAMILY: Family<'static> = Family {
    name: "listings",
    number: 3,
    cases: 400,
    line: 10,
};

// The longest output lent. No listing has more than 323,609 bytes.
pub const OUTPUT_BYTES: usize = 330000;

// Whether RELOAD is cleared in block n: in all, in most or in none.
fn is_cleared(f: u8, n: usize) -> bool {
    match f % 8 {
        0 => true,
        1..=3 => n % 16 != 0,
        _ => false,
    }
}

// Clears RELOAD as the byte F says.
fn clear_reload(f: u8, ram: &mut LongRam) {
    let (blocks, _) = ram.as_chunks_mut::<16>();
    for (n, block) in blocks.iter_mut().enumerate() {
        if is_cleared(f, n) {
            block[1] = no_reload(block[1]);
        }
    }
}

// The length of the second output, from P, Q and the length of the first listing.
fn output_length(p: u8, q: u8, whole: usize) -> usize
    ensures { result ≤ OUTPUT_BYTES }
{
    let length = match p % 8 {
        0 => whole.saturating_sub(1),
        1 => 0,
        2..=4 => whole,
        5..=6 => whole.saturating_add(usize::from(q)),
        _ => OUTPUT_BYTES,
    };
    length.min(OUTPUT_BYTES)
}

// Makes one call, and answers the listing's length, 0 if it was refused.
fn run_call(registers: Registers, ram: &[u8], out: &mut [u8], report: &mut Report) -> usize {
    out.fill(170);
    let answer = listing::list(registers, ram, out);
    let length = answer.unwrap_or(0);
    report.refusal(answer.err());
    report.digest.number(length);
    report.digest.bytes(out);
    length
}

// Runs one case: two calls, the second lent an output of another length.
pub fn run_case(drawn: Case, ram: &mut LongRam, out: &mut [u8; OUTPUT_BYTES], report: &mut Report) {
    let Case { mut source, head } = drawn;
    let p = source.byte();
    let q = source.byte();
    draw_plain_ram(&mut source, ram);
    clear_reload(head.f, ram);
    let state = head.faulty_state();
    let ram = &ram[..head.ram_length()];
    report.given(state, ram);
    let whole = run_call(state.registers, ram, out, report);
    let room = output_length(p, q, whole);
    run_call(state.registers, ram, &mut out[..room], report);
}
