// Two files that are read together.
ghost use Rattle.std.specs.Prelude.{◌≡◌, ◌≤◌, length, true, IfErr, IfOk};
ghost use Rattle.files.specs.Reading.{both_read, is_unread};

use crate::argument::read_argument;
use crate::error::Error;
use std::env::Env;
use std::rt::Files;

// Both of the files that arguments i and j name, or the first that could not be read.
fn both_read<'a>(
    i: usize,
    j: usize,
    first: Option<&'a [u8]>,
    second: Option<&'a [u8]>,
) -> Result<(&'a [u8], &'a [u8]), Error>
    ensures { result ≡ both_read i j first.entry second.entry }
{
    let first = first.ok_or(Error::Unread(i))?;
    let second = second.ok_or(Error::Unread(j))?;
    Ok((first, second))
}

// Reads the files that arguments i and j name.
pub fn read_pair<'a>(
    rt: &(impl Files + Env),
    i: usize,
    j: usize,
    first: &'a mut [u8],
    second: &'a mut [u8],
) -> Result<(&'a [u8], &'a [u8]), Error>
    ensures lengths { IfOk result (λ read. (length read.0.now ≤ length first.old) × (length read.1.now ≤ length second.old)) }
    ensures unread { IfErr result (λ error. is_unread i j error ≡ true) }
{
    let first = read_argument(rt, i, first);
    let second = read_argument(rt, j, second);
    both_read(i, j, first, second)
}
