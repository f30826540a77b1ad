// Family "dots" of second/README.md: questions for one dot.
ghost use Rattle.std.specs.Prelude.{◌<◌};

use cases::{Case, Digest, Family, LongRam, Report, Source};
use nick::{Answer, Sources, State};

// The family.
pub const FAMILY: Family<'static> = Family {
    name: "dots",
    number: 2,
    cases: 1000,
    line: 25,
};

// The line drawn: one of the first eight where q is even.
fn drawn_line(q: u8, word: u16) -> usize
    ensures { result < 1024 }
{
    if q % 2 == 0 {
        usize::from(word) % 8
    } else {
        usize::from(word) % 1024
    }
}

// The line asked for, by the byte q and the word drawn.
fn line_of(q: u8, word: u16) -> usize {
    let line = drawn_line(q, word);
    match q / 2 % 32 {
        0 | 4 => 1024,
        1 => line + 1024,
        _ => line,
    }
}

// The dot asked for, by the byte q and the word drawn.
fn dot_of(q: u8, word: u16) -> usize {
    let dot = usize::from(word) % 736;
    match q / 2 % 32 {
        2 | 4 => 736,
        3 => dot + 736,
        _ => dot,
    }
}

// Takes in the number of addresses, and each.
fn digest_sources(digest: &mut Digest, sources: Sources) {
    match sources {
        Sources::Nothing => digest.byte(0),
        Sources::One(a) => {
            digest.byte(1);
            digest.word(a);
        }
        Sources::Two(a, b) => {
            digest.byte(2);
            digest.word(a);
            digest.word(b);
        }
    }
}

// Draws and asks one question.
fn run_question(source: &mut Source, state: State, ram: &[u8], report: &mut Report) {
    let q = source.byte();
    let line = line_of(q, source.word());
    let dot = dot_of(q, source.word());
    let external = source.byte();
    report.digest.number(line);
    report.digest.number(dot);
    report.digest.byte(external);
    let answer = direct::dot(state, ram, line, dot, external);
    report.refusal(answer.err());
    if let Ok(Answer { colour, sources }) = answer {
        report.digest.byte(colour);
        digest_sources(&mut report.digest, sources);
    }
}

// Runs one case: eight questions.
pub fn run_case(mut drawn: Case, ram: &mut LongRam, report: &mut Report) {
    drawn.draw_ram(ram);
    let Case { mut source, head } = drawn;
    let state = head.faulty_state();
    let ram = &ram[..head.ram_length()];
    report.given(state, ram);
    for _ in 0..8 {
        run_question(&mut source, state, ram, report);
    }
}
