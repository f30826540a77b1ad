// The tests of the refusal table, each made by several calls: a test says that its refusal applies. And the stamp that a refused
// call leaves.
#![tactic(auto)]

ghost use Rattle.std.specs.Prelude.{◌≡◌, not, cond, ◌||◌, ◌*◌, ◌/◌, ◌≤◌, ◌==◌, eqb, length, replicate, slice_index, IfOk};
ghost use Rattle.std.specs.List.{list_any};
ghost use Rattle.nick.specs.Sizes.{record_bytes};
ghost use Rattle.nick.specs.Refusals.{refusal_in, ill_formed, not_full, bad_height, any_stamped};

use nick::{RECORD_BYTES, Ram, Refusal, Scan};

// 3: more than 256 scanlines left, or a block number over 4,095.
pub fn is_ill_formed(scan: Scan) -> bool
    ensures { result ≡ ill_formed scan }
{
    256 < scan.left || 4095 < scan.number
}

// The whole RAM, or refusal 4: RAM is not 65,536 bytes. A function that hands it on says the same of it in a clause `same`.
pub fn whole(ram: &[u8]) -> Result<&Ram, Refusal>
    ensures refusal { refusal_in result ≡ cond (not_full ram.now) 4 0 }
    ensures same { IfOk result (λ whole. whole.now ≡ ram.now) }
{
    ram.as_array().ok_or(Refusal::RamLength)
}

// 5: no lines, or more than 1,024.
pub fn is_bad_height(height: usize) -> bool
    ensures { result ≡ bad_height height }
{
    height == 0 || 1024 < height
}

// 6 and 7: a buffer has not `each` bytes for each line. Here, below and in painting's table the height is asked to be at most 1,024 by a
// clause, since it is multiplied: test 5 comes before (docs/DECISIONS.md 1).
pub fn is_bad_length(bytes: usize, each: usize, height: usize) -> bool
    requires { (each ≤ 736) × (height ≤ 1024) }
    ensures { result ≡ not (eqb bytes (each * height)) }
{
    bytes != each * height
}

// 8: external input is neither empty nor a byte for each dot.
pub fn is_bad_external(bytes: usize, height: usize) -> bool
    requires { height ≤ 1024 }
    ensures { result ≡ not (eqb bytes 0 || eqb bytes (736 * height)) }
{
    bytes != 0 && is_bad_length(bytes, 736, height)
}

// Whether one of the records begins with 255.
fn any_begins_with_255(records: &[[u8; RECORD_BYTES]]) -> bool
    ensures { result ≡ list_any (λ bytes. slice_index bytes 0 == 255) records.now }
{
    records.iter().any(|bytes| bytes[0] == 255)
}

// 12: a record begins with 255, as those of a refused painting do.
#[tactic(auto, using(crate::proofs::Stamped::stamped_records))]
pub fn is_stamped(records: &[u8]) -> bool
    ensures { result ≡ any_stamped (length records.now / record_bytes) records.now }
{
    let (records, _) = records.as_chunks();
    any_begins_with_255(records)
}

// Stamps the records of a refused call: 255 over every byte, whatever their length.
pub fn stamp(records: &mut [u8])
    ensures { records.new ≡ replicate (length records.old) 255 }
{
    records.fill(255);
}
