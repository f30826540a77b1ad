// The dots of two sides that may be compared.
ghost use Rattle.std.specs.Prelude.{◌≡◌, ◌<◌, ◌≤◌, length};

// A capture's dots and a frame's: as many in both, at least one, and no more than 1,024 lines have.
#[derive(Clone, Copy)]
pub struct Pair<'a> {
    pub capture: &'a [u8],
    pub frame: &'a [u8],
    ghost same: { length frame.now ≡ length capture.now },
    ghost some: { 0 < length capture.now },
    ghost most: { length capture.now ≤ 753664 },
}
