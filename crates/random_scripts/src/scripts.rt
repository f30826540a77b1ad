// Family "scripts" of second/README.md: runs of scripts.
mod steps;

use cases::{Buffers, Case, Family, Lent, Report};
use script::{Failure, Ran};
use steps::{MOST_BYTES, draw_script};

// The family.
pub const FAMILY: Family<'static> = Family {
    name: "scripts",
    number: 8,
    cases: 1000,
    line: 25,
};

// Takes in an answer, but for the state.
fn digest_answer(report: &mut Report, ran: Ran) {
    let (refusal, place) = match ran.outcome {
        Ok(()) => (None, None),
        Err(Failure::Refused(refusal)) => (Some(refusal), None),
        Err(Failure::Stopped(refusal, place)) => (Some(refusal), Some(place)),
    };
    report.refusal(refusal);
    report.digest.byte(u8::from(place.is_some()));
    report.digest.number(place.unwrap_or(0));
    report.digest.byte(u8::from(ran.bench.latch));
    report.digest.byte(u8::from(ran.bench.enable));
    report.digest.byte(u8::from(ran.request));
}

// Runs one case: a script.
pub fn run_case(mut drawn: Case, buffers: &mut Buffers, report: &mut Report) {
    drawn.draw_ram(&mut buffers.ram);
    let head = drawn.head;
    let mut bytes = [0u8; MOST_BYTES];
    let (script, lines) = draw_script(&mut drawn.source, head, &mut bytes);
    let state = head.faulty_state();
    let Lent {
        ram,
        dots,
        records,
        external,
    } = buffers.lend(drawn, lines);
    report.digest.number(script.len());
    report.digest.bytes(script);
    report.given(state, ram);
    report.digest.bytes(external);
    let ran = script::run(state, ram, script, dots, records, external);
    digest_answer(report, ran);
    report.left(ran.bench.state, dots, records);
}
