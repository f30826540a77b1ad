// Family "comparisons" of second/README.md: captures compared with frames.
mod sides;

use cases::{Buffers, Case, Digest, Family, MOST_RECORDS, Report};
use comparison::Side;
use sides::{draw_dots, draw_records};

// The family.
pub const FAMILY: Family<'static> = Family {
    name: "comparisons",
    number: 7,
    cases: 1000,
    line: 25,
};

// Takes in the dots and the records of a side.
fn digest_side(digest: &mut Digest, side: Side<'_>) {
    digest.bytes(side.dots);
    digest.bytes(side.records);
}

// Compares both sides.
fn run_call(height: usize, capture: Side<'_>, frame: Side<'_>, report: &mut Report) {
    report.digest.number(height);
    digest_side(&mut report.digest, capture);
    digest_side(&mut report.digest, frame);
    match comparison::compare(height, capture, frame) {
        Ok(found) => {
            report.refusal(None);
            report.digest.byte(0);
            report.digest.bytes(&packing::found_bytes(found));
        }
        Err(refused) => {
            report.refusal(Some(refused.refusal));
            report.digest.byte(packing::side_number(refused.side));
        }
    }
}

// Runs one case: a comparison, of whole buffers cut to lengths that may be wrong. The frame's dots stand in the buffer of external
// input, which saves a second one of 754,400 bytes.
pub fn run_case(drawn: Case, buffers: &mut Buffers, report: &mut Report) {
    let Case { mut source, head } = drawn;
    let height = head.heights();
    let lines = height.lent;
    let Buffers {
        dots,
        records,
        external,
        ..
    } = buffers;
    let mut frame_records = [0u8; MOST_RECORDS];
    let capture_dots = &mut dots[..lines.dots(head.wrong(4))];
    let capture_records = &mut records[..lines.records(head.wrong(5))];
    let frame_dots = &mut external[..lines.dots(head.wrong(0))];
    let frame_records = &mut frame_records[..lines.records(head.wrong(6))];
    draw_dots(&mut source, head, capture_dots, frame_dots);
    draw_records(&mut source, head.has_fault(1), capture_records);
    draw_records(&mut source, head.has_fault(2), frame_records);
    let capture = Side {
        dots: capture_dots,
        records: capture_records,
    };
    let frame = Side {
        dots: frame_dots,
        records: frame_records,
    };
    run_call(height.asked, capture, frame, report);
}
