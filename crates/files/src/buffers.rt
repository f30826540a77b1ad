// The buffers of a painting program, but for its commands: their room differs, and the bound on a closure may not name a const
// parameter.
ghost use Rattle.std.specs.Prelude.{◌≡◌};
ghost use Rattle.files.specs.Buffers.{blank};

use crate::error::Error;
use crate::inputs::RAM_ROOM;
use crate::outputs::{DOTS_MOST, RECORDS_MOST};

// RAM as read, what is painted, and EXTERNAL, which has one byte more than is allowed, so that a longer file shows.
#[derive(Drop)]
pub struct Buffers {
    pub ram: [u8; RAM_ROOM],
    pub dots: [u8; DOTS_MOST],
    pub records: [u8; RECORDS_MOST],
    pub external: [u8; DOTS_MOST + 1],
}

// Makes room for the buffers, some 1.6 MB, and answers what the run in them does. It is not to be part of its caller: there must be no
// buffers before RECORDS is stamped. check_example tries it.
#[inline(never)]
pub fn run_in_buffers<F: FnOnce(&mut Buffers) -> Result<(), Error>>(run: F) -> Result<(), Error>
    requires { F.IsAlwaysCallable run }
    ensures { (lent left : _) × F.post run lent result left × (lent.now ≡ blank) }
{
    let mut buffers = Buffers {
        ram: [0; RAM_ROOM],
        dots: [0; DOTS_MOST],
        records: [0; RECORDS_MOST],
        external: [0; DOTS_MOST + 1],
    };
    run(&mut buffers)
}
