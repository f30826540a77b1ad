// A dot by its slot.
ghost use Rattle.std.specs.Prelude.{◌<◌};

// A dot of a scanline: the dot slot that it is in, and its place among the sixteen dots there.
#[derive(Clone, Copy, PartialEq, Eq)]
pub struct SlotDot {
    pub slot: u8,
    pub place: u8,
    ghost inside: { place < 16 },
}
