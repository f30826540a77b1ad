// The refusal table: why a call is refused, by number and in words.
ghost use Rattle.std.specs.Prelude.{◌≡◌};
ghost use Rattle.nick.specs.Refusals.{number_of, number_asked};

use std::fmt;

// Why a call is refused. The cases stand in the order of their numbers: where several apply, the least is given.
#[derive(Clone, Copy, PartialEq, Eq)]
pub enum Refusal {
    ForeignPort = 1,
    ReservedPort = 2,
    IllFormedState = 3,
    RamLength = 4,
    Height = 5,
    DotsLength = 6,
    RecordsLength = 7,
    ExternalLength = 8,
    Place = 9,
    OutputLength = 10,
    StampedRecord = 12,
    Script = 19,
    EncodedLength = 20,
}

// A number that is no refusal's.
#[derive(Clone, Copy, PartialEq, Eq)]
pub struct UnknownRefusal(pub u8);

impl From<Refusal> for u8 {
    ghost from_gives = { λ refusal n. n ≡ number_of refusal };

    fn from(refusal: Refusal) -> u8 {
        refusal as u8
    }
}

impl TryFrom<u8> for Refusal {
    type Error = UnknownRefusal;

    ghost try_from_gives = { λ n r. number_asked r ≡ n };

    // A table, since no derive makes one.
    fn try_from(n: u8) -> Result<Self, UnknownRefusal> {
        Ok(match n {
            1 => Refusal::ForeignPort,
            2 => Refusal::ReservedPort,
            3 => Refusal::IllFormedState,
            4 => Refusal::RamLength,
            5 => Refusal::Height,
            6 => Refusal::DotsLength,
            7 => Refusal::RecordsLength,
            8 => Refusal::ExternalLength,
            9 => Refusal::Place,
            10 => Refusal::OutputLength,
            12 => Refusal::StampedRecord,
            19 => Refusal::Script,
            20 => Refusal::EncodedLength,
            _ => return Err(UnknownRefusal(n)),
        })
    }
}

// The words of a refusal.
impl fmt::Display for Refusal {
    fn fmt<W: fmt::Write>(&self, f: &mut fmt::Formatter<W>) -> fmt::Result {
        f.write_str(match self {
            Refusal::ForeignPort => "port outside 128 to 143",
            Refusal::ReservedPort => "port 132 to 143 (reserved)",
            Refusal::IllFormedState => "scanlines left over 256, or block number over 4,095",
            Refusal::RamLength => "RAM not 65,536 bytes",
            Refusal::Height => "height 0 or over 1,024",
            Refusal::DotsLength => "dot buffer not 736 times the height",
            Refusal::RecordsLength => "record buffer not 7 times the height",
            Refusal::ExternalLength => "external input neither empty nor 736 times the height",
            Refusal::Place => "line over 1,023 or dot over 735",
            Refusal::OutputLength => "output shorter than the whole listing",
            Refusal::StampedRecord => "a record begins with 255",
            Refusal::Script => "script length not a multiple of 3, or a step of a kind over 3",
            Refusal::EncodedLength => "a state not of 32 bytes, or a comparison's answer not of 14",
        })
    }
}

impl fmt::Display for UnknownRefusal {
    fn fmt<W: fmt::Write>(&self, f: &mut fmt::Formatter<W>) -> fmt::Result {
        f.write_str("no call gives this number")
    }
}
