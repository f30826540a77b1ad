// The dots and records of both sides of a comparison.
use cases::{Head, Source};
use nick::RECORD_BYTES;

// Makes the frame's dots those of the capture, 0 where it has none.
fn copy_dots(capture: &[u8], frame: &mut [u8]) {
    let shared = capture.len().min(frame.len());
    frame[..shared].copy_from_slice(&capture[..shared]);
    frame[shared..].fill(0);
}

// Draws one change of the frame's dots, and makes it unless there are none.
fn change_dot(source: &mut Source, frame: &mut [u8]) {
    let low = source.word();
    let high = source.byte();
    let value = source.byte();
    let n = frame.len();
    if n != 0 {
        frame[(usize::from(low) + 65536 * usize::from(high)) % n] = value;
    }
}

// Draws the dots of both sides. By G the frame's are the capture's, these with changes, or drawn too; or each side has one colour.
pub fn draw_dots(source: &mut Source, head: Head, capture: &mut [u8], frame: &mut [u8]) {
    source.fill_repeated(capture);
    match head.g % 4 {
        0 => copy_dots(capture, frame),
        1 => {
            copy_dots(capture, frame);
            for _ in 0..=head.g / 4 {
                change_dot(source, frame);
            }
        }
        2 => source.fill_repeated(frame),
        _ => {
            frame.fill(head.state.registers.fixbias);
            capture.fill(head.state.registers.border);
        }
    }
}

// Fills the records of a side, and draws their stamp: with its fault one record is stamped; else, where s says so, one byte is 255,
// whichever of a record's it is.
pub fn draw_records(source: &mut Source, is_faulty: bool, records: &mut [u8]) {
    records.fill(85);
    let s = source.byte();
    let w = usize::from(source.word());
    let n = records.len();
    if n == 0 {
        return;
    }
    let place = w % n;
    if is_faulty {
        records[place - place % RECORD_BYTES] = 255;
    } else if s % 4 == 0 {
        records[place] = 255;
    }
}
