// The script of a case: its steps, the bytes after them, and the height that the buffers are made for.
ghost use Rattle.std.specs.Prelude.{◌≤◌, length, MatchOption};

use cases::{Head, Lines, Source};

// The bytes of the longest script, of 1,280 steps, and of what may follow its last one.
pub const MOST_BYTES: usize = 3 * 1280 + 2;

// The kinds of a script's steps: mixed as drawn, all of them 1, or none.
#[derive(Clone, Copy, PartialEq, Eq)]
enum Kinds {
    Mixed,
    Painting,
    Quiet,
}

// What a script is to be: the kinds of its steps, how many these are, and the height that the buffers are made for, unless that is
// of the scanlines that they paint.
#[derive(Clone, Copy, PartialEq, Eq)]
struct Plan {
    kinds: Kinds,
    steps: usize,
    lines: Option<Lines>,
}

// The kind of a step by its bytes k and p, as a byte and no Step, since unknown kinds are drawn too, only where G says so.
fn drawn_kind(g: u8, k: u8, p: u8) -> u8 {
    match k % 32 {
        0..=19 => 1,
        20..=24 => 0,
        25..=27 => 2,
        28..=30 => 3,
        _ => { if g % 4 == 0 { 4 + p % 252 } else { 1 } }
    }
}

// The kind of a step in a script of these kinds. By an enum and no closure, since a plan holds it.
fn kind_of(kinds: Kinds, drawn: u8) -> u8 {
    match kinds {
        Kinds::Mixed => drawn,
        Kinds::Painting => 1,
        Kinds::Quiet => { if drawn == 1 { 2 } else { drawn } }
    }
}

// A port without a register: the first and the last of the chip's, or one beside them.
fn wrong_port(p: u8) -> u8 {
    match p / 8 % 4 {
        0 => 127,
        1 => 132,
        2 => 143,
        _ => 144,
    }
}

// The port of a step by its byte p. One without a register is written only where G says so.
fn port_of(g: u8, kind: u8, p: u8) -> u8 {
    if kind != 0 {
        return p;
    }
    if g / 4 % 2 == 1 && p % 8 == 0 {
        wrong_port(p)
    } else {
        128 + p % 4
    }
}

// Makes a step of the three bytes drawn.
fn make_step(kinds: Kinds, g: u8, step: &mut [u8; 3]) {
    let [k, p, d] = *step;
    let kind = kind_of(kinds, drawn_kind(g, k, p));
    *step = [kind, port_of(g, kind, p), d];
}

// How many bytes follow the last step: part of another, where G says so.
fn tail_length(g: u8) -> usize
    ensures { result ≤ 2 }
{
    if g / 8 % 8 != 0 {
        return 0;
    }
    if g / 64 % 2 == 0 { 1 } else { 2 }
}

// What a case's script is to be. With fault 3 it has no steps, steps that all paint, for one scanline or more too many, or steps
// that paint none.
fn plan_of(head: Head) -> Plan
    ensures { MatchOption result.lines (result.steps ≤ 1025) (λ _. result.steps ≤ 1280) }
{
    let h = head.height;
    let steps = if h <= 64 { 8 * h } else { h };
    if !head.has_fault(3) {
        return Plan {
            kinds: Kinds::Mixed,
            steps,
            lines: None,
        };
    }
    let (kinds, steps, count) = match head.t[5] % 4 {
        0 => (Kinds::Mixed, 0, 0),
        1 => (Kinds::Painting, 1025, 1025),
        2 => (Kinds::Painting, 1025 + usize::from(head.t[6]), h),
        _ => (Kinds::Quiet, steps, if head.t[6] % 2 == 1 { h } else { 0 }),
    };
    Plan {
        kinds,
        steps,
        lines: Some(Lines { count }),
    }
}

// Draws n steps, and answers how many scanlines they paint: by a filter, whose count is known to be at most n, which `script::lines_in`
// does not say.
fn draw_steps(
    source: &mut Source,
    kinds: Kinds,
    g: u8,
    n: usize,
    out: &mut [u8; MOST_BYTES],
) -> usize
    requires { n ≤ 1280 }
    ensures { result ≤ n }
{
    let steps = &mut out[..3 * n];
    source.fill(steps);
    let (steps, _) = steps.as_chunks_mut::<3>();
    for step in steps.iter_mut() {
        make_step(kinds, g, step);
    }
    steps.iter().filter(|step| step[0] == 1).count()
}

// Draws the script of a case, and answers it with the height that the buffers are made for. The bytes after its last step stand in the
// buffer, and `tail_length` says how many of them are the script's.
pub fn draw_script<'a>(
    source: &mut Source,
    head: Head,
    out: &'a mut [u8; MOST_BYTES],
) -> (&'a [u8], Lines)
    ensures { length result.0.now ≤ 3842 }
{
    let plan = plan_of(head);
    let painted = draw_steps(source, plan.kinds, head.g, plan.steps, out);
    let end = 3 * plan.steps;
    out[end] = 1;
    out[end + 1] = 129;
    // A match: that there are at most 1,025 lines is known only where the plan has none.
    let lines = match plan.lines {
        Some(lines) => lines,
        None => Lines { count: painted },
    };
    (&out[..end + tail_length(head.g)], lines)
}
