// Family "frames" of second/README.md: paintings.
use cases::{Buffers, Case, Family, Head, Heights, Lent, Lines, Report};

// The family.
pub const FAMILY: Family<'static> = Family {
    name: "frames",
    number: 1,
    cases: 2000,
    line: 50,
};

// Both heights: a single line has 1, whatever the faults.
fn heights_of(head: Head, is_single: bool) -> Heights {
    if is_single {
        return Heights {
            asked: 1,
            lent: Lines { count: 1 },
        };
    }
    head.heights()
}

// Runs one case: paints one line or a frame.
pub fn run_case(mut drawn: Case, buffers: &mut Buffers, report: &mut Report) {
    drawn.draw_ram(&mut buffers.ram);
    let head = drawn.head;
    let is_single = head.g % 8 == 0;
    let height = heights_of(head, is_single);
    let mut state = head.faulty_state();
    let Lent {
        ram,
        dots,
        records,
        external,
    } = buffers.lend(drawn, height.lent);
    report.digest.byte(u8::from(is_single));
    report.digest.number(height.asked);
    report.given(state, ram);
    report.digest.bytes(external);
    let painted = if is_single {
        painting::paint_line(&mut state, ram, dots, records, external)
    } else {
        painting::paint_lines(&mut state, ram, height.asked, dots, records, external)
    };
    report.refusal(painted.err());
    report.left(state, dots, records);
}
