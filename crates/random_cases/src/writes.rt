// Family "writes" of second/README.md: register writes.
use cases::{Case, Family, Report, Source};
use nick::State;

// The family.
pub const FAMILY: Family<'static> = Family {
    name: "writes",
    number: 5,
    cases: 1000,
    line: 25,
};

// The port of a write, by the bytes k and p0 to p3.
fn port_of(k: u8, p: [u8; 4]) -> u32 {
    let low = u32::from(p[0]);
    match k % 8 {
        0..=3 => 128 + low % 4,
        4 => 128 + low % 16,
        5 => 120 + low % 31,
        6 => 128 + low % 16 + 256 * u32::from(u16::from_le_bytes([p[1], p[2]])),
        _ => u32::from_le_bytes(p),
    }
}

// Draws and makes one write.
fn run_write(source: &mut Source, state: &mut State, report: &mut Report) {
    let k = source.byte();
    let port = port_of(k, source.bytes());
    let value = source.byte();
    report.digest.number(port as usize);
    report.digest.byte(value);
    let written = nick::write(state, port, value);
    report.refusal(written.err());
    report.digest.state(*state);
}

// Runs one case: sixteen writes.
pub fn run_case(drawn: Case, report: &mut Report) {
    let Case { mut source, head } = drawn;
    let mut state = head.faulty_state();
    report.digest.state(state);
    for _ in 0..16 {
        run_write(&mut source, &mut state, report);
    }
}
