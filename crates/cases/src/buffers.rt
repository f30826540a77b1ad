// The whole buffers, and the parts of them that a painting is lent.
use crate::head::Case;
use crate::lengths::{Lines, MOST_DOTS, MOST_RECORDS};
use crate::ram::LongRam;
use nick::RAM_BYTES;

// The whole buffers.
#[derive(Drop)]
pub struct Buffers {
    pub ram: LongRam,
    pub dots: [u8; MOST_DOTS],
    pub records: [u8; MOST_RECORDS],
    pub external: [u8; MOST_DOTS],
}

// What a painting is lent.
#[derive(Drop)]
pub struct Lent<'a> {
    pub ram: &'a [u8],
    pub dots: &'a mut [u8],
    pub records: &'a mut [u8],
    pub external: &'a [u8],
}

impl Buffers {
    pub fn new() -> Self {
        Buffers {
            ram: [0; RAM_BYTES + 1],
            dots: [0; MOST_DOTS],
            records: [0; MOST_RECORDS],
            external: [0; MOST_DOTS],
        }
    }

    // Lends what a painting of this height gets, with the faults of a case whose RAM is drawn: draws external input, and fills
    // dots and records as they are before a call.
    pub fn lend(&mut self, drawn: Case, lines: Lines) -> Lent<'_> {
        let Case { mut source, head } = drawn;
        let Buffers {
            ram,
            dots,
            records,
            external,
        } = self;
        let is_connected = head.g / 8 % 2 == 1;
        let ram = &ram[..head.ram_length()];
        let dots = &mut dots[..lines.dots(head.wrong(4))];
        let records = &mut records[..lines.records(head.wrong(5))];
        let external = &mut external[..lines.external(is_connected, head.wrong(6))];
        source.fill_repeated(external);
        dots.fill(170);
        records.fill(85);
        Lent {
            ram,
            dots,
            records,
            external,
        }
    }
}
