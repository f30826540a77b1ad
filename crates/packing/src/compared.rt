// A comparison's answer: the refusal as a number, and what is found as 14 bytes.
ghost use Rattle.std.specs.Prelude.{◌≡◌};
ghost use Rattle.comparison.specs.Answers.{side_of, place_of, told_by, found_by};
ghost use Rattle.packing.specs.Compared.{side_number, packed_told, signed_byte, place_bytes, found_bytes};

use comparison::{Differences, Named, Place, Refused};

// The side that a refusal names, as a number. The numbers are the interface's, not the comparison's.
pub fn side_number(side: Option<Named>) -> u8
    ensures { result ≡ side_number (side_of side) }
{
    match side {
        None => 0,
        Some(Named::Capture) => 1,
        Some(Named::Frame) => 2,
    }
}

// Bits 0 to 7 the refusal, bits 8 to 15 the side.
pub fn packed_refusal(refused: Refused) -> u32
    ensures { result ≡ packed_told (told_by refused) }
{
    u32::from_le_bytes([u8::from(refused.refusal), side_number(refused.side), 0, 0])
}

// A difference as a signed byte.
fn signed_byte(difference: i32) -> u8
    ensures { result ≡ signed_byte difference }
{
    let [byte, ..] = difference.to_le_bytes();
    byte
}

// The first dot's line and place in the line, 65,535 both if there is none.
fn place_bytes(first: Option<Place>) -> [u8; 4]
    ensures { result ≡ place_bytes (place_of first) }
{
    let Some(place) = first else {
        return [255; 4];
    };
    let [line, high_line] = place.line.to_le_bytes();
    let [dot, high_dot] = place.dot.to_le_bytes();
    [line, high_line, dot, high_dot]
}

// What is found, as bytes: one by one, since with `copy_from_slice` here the compiler arranges painting otherwise, which then takes up to
// 8 % more instructions.
pub fn found_bytes(found: Differences) -> [u8; 14]
    ensures { result ≡ found_bytes (found_by found) }
{
    let count = found.count.to_le_bytes();
    let place = place_bytes(found.first);
    [
        count[0],
        count[1],
        count[2],
        count[3],
        place[0],
        place[1],
        place[2],
        place[3],
        signed_byte(found.ranges.red.smallest),
        signed_byte(found.ranges.red.largest),
        signed_byte(found.ranges.green.smallest),
        signed_byte(found.ranges.green.largest),
        signed_byte(found.ranges.blue.smallest),
        signed_byte(found.ranges.blue.largest),
    ]
}
