// RAM and register writes, from the files that a program's first two arguments name.
ghost use Rattle.std.specs.Prelude.{◌≡◌, ◌%◌, ◌≤◌, cond, eqb, length, IfOk};

use crate::error::Error;
use crate::pair::read_pair;
use nick::RAM_BYTES;
use std::env::Env;
use std::rt::Files;

// The arguments that a program of the chip begins with: RAM, and what is done to the chip, register writes or a script.
pub const RAM: usize = 1;

pub const COMMANDS: usize = 2;

// The same argument, where it is register writes.
pub const WRITES: usize = COMMANDS;

// The room for RAM and for WRITES: one byte more than is allowed, so that a longer file shows.
pub const RAM_ROOM: usize = RAM_BYTES + 1;

pub const WRITES_ROOM: usize = 65537;

// What was read of RAM and WRITES.
#[derive(Clone, Copy, PartialEq, Eq)]
pub struct Inputs<'a> {
    pub ram: &'a [u8],
    pub writes: &'a [u8],
}

// The register writes, where they are pairs of bytes.
fn paired(writes: &[u8]) -> Result<&[u8], Error>
    ensures { result ≡ cond (eqb (length writes.now % 2) 1) (Err Error.Usage) (Ok writes.entry) }
{
    if writes.len() % 2 == 1 {
        return Err(Error::Usage);
    }
    Ok(writes)
}

// Reads RAM and WRITES.
pub fn read_inputs<'a>(
    rt: &(impl Files + Env),
    ram: &'a mut [u8],
    writes: &'a mut [u8],
) -> Result<Inputs<'a>, Error>
    ensures lengths { IfOk result (λ read. (length read.ram.now ≤ length ram.old) × (length read.writes.now ≤ length writes.old)) }
    ensures pairs { IfOk result (λ read. length read.writes.now % 2 ≡ 0) }
{
    let (ram, writes) = read_pair(rt, RAM, COMMANDS, ram, writes)?;
    let writes = paired(writes)?;
    Ok(Inputs { ram, writes })
}
