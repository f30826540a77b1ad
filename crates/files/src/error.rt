// Why a program does not do what it is for.
ghost use Rattle.std.specs.Prelude.{◌≡◌};

use nick::Refusal;

#[derive(Clone, Copy, PartialEq, Eq)]
pub enum Error {
    // The program is not used as its usage says.
    Usage,
    // The file that this argument names could not be read.
    Unread(usize),
    // The file that this argument names could not be written.
    Unwritten(usize),
    // A call to the chip is refused.
    Refused(Refusal),
}

impl From<Refusal> for Error {
    ghost use Rattle.files.specs.declared.error.Error.TheVariants.{Refused};

    ghost from_gives = { λ refusal error. error ≡ Refused refusal };

    fn from(refusal: Refusal) -> Error {
        Error::Refused(refusal)
    }
}
