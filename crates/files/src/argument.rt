// The files and numbers that the program's arguments name.
ghost use Rattle.std.specs.Prelude.{◌≡◌, ◌≤◌, length, take, IfErr, IfOk, IfSome};

use crate::error::Error;
use std::env::{Env, FillError};
use std::io::{Read, Write};
use std::rt::Files;
use std::{fs, io};

// The room for an argument: a path has fewer bytes.
pub const PATH_MAX: usize = 4096;

// Argument i, at the start of the buffer; empty where it is absent or longer than the buffer, so that no argument counts as its first
// part (docs/DECISIONS.md 60).
fn argument_in<'a>(rt: &impl Env, i: usize, buf: &'a mut [u8; PATH_MAX]) -> &'a [u8]
    ensures { length result.now ≤ 4096 }
{
    let length = rt.arg(i, buf).unwrap_or(0);
    &buf[..length]
}

// What is made of argument i, in room of its own. It is not to be part of its caller, so that little stack is needed before RECORDS
// is stamped.
#[inline(never)]
pub(crate) fn with_argument<T, F: FnOnce(&[u8]) -> T>(rt: &impl Env, i: usize, make: F) -> T
    requires { F.IsAlwaysCallable make }
{
    let mut room = [0u8; PATH_MAX];
    make(argument_in(rt, i, &mut room))
}

// Whether nothing is left to read. A read that fails moves nothing, so after one this read fails too.
fn is_at_end(file: &mut impl Read) -> bool {
    matches!(file.read(&mut [0u8; 1]), Ok(0))
}

// Reads until the buffer is full, the file ends or a read fails, and answers how much was read.
// A while, since a read may move less than there is room for.
fn read_full(file: &mut impl Read, buf: &mut [u8]) -> usize
    ensures { result ≤ length buf.old }
{
    let mut done: usize = 0;
    while done < buf.len() {
        match file.read(&mut buf[done..]) {
            Ok(0) | Err(_) => return done,
            Ok(n) => done += n,
        }
    }
    done
}

// The start of a buffer, as many bytes as were read into it.
fn front(buf: &[u8], read: usize) -> &[u8]
    requires { read ≤ length buf.now }
    ensures { result.now ≡ take read buf.now }
{
    &buf[..read]
}

// Opens the file that argument i names, where that can be done. A name that is not UTF-8 opens none.
fn open_by<R: Files + Env, F: FnOnce(&str) -> io::Result<R::File>>(
    rt: &R,
    i: usize,
    open_file: F,
) -> Option<R::File>
    requires { F.IsAlwaysCallable open_file }
{
    with_argument(rt, i, |path| open_file(str::from_utf8(path).ok()?).ok())
}

// Reads the file that argument i names until the buffer is full or the file ends, where that can be done, and answers what was read.
pub fn read_argument<'a>(rt: &(impl Files + Env), i: usize, buf: &'a mut [u8]) -> Option<&'a [u8]>
    ensures { IfSome result (λ read. length read.now ≤ length buf.old) }
{
    let mut file = open_by(rt, i, |name| fs::open(rt, name))?;
    let length = read_full(&mut file, buf);
    if length < buf.len() && !is_at_end(&mut file) {
        return None;
    }
    Some(front(buf, length))
}

// How many arguments there are, the program's name among them.
pub fn argument_count(rt: &impl Env) -> usize {
    (0..usize::MAX)
        .find(|i| matches!(rt.arg(*i, &mut [0u8; 1]), Err(FillError::NotPresent)))
        .unwrap_or(usize::MAX)
}

// Whether argument i is there.
pub fn is_given(rt: &impl Env, i: usize) -> bool {
    i < argument_count(rt)
}

// Reads the file that argument i names, or nothing where that is absent.
pub fn read_optional<'a>(
    rt: &(impl Files + Env),
    i: usize,
    buf: &'a mut [u8],
) -> Result<&'a [u8], Error>
    ensures read { IfOk result (λ read. length read.now ≤ length buf.old) }
    ensures unread { IfErr result (λ error. error ≡ Error.Unread i) }
{
    if !is_given(rt, i) {
        return Ok(&[]);
    }
    read_argument(rt, i, buf).ok_or(Error::Unread(i))
}

// Writes the file that argument i names anew, the bytes as many times as told.
pub fn write_repeated(
    rt: &(impl Files + Env),
    i: usize,
    bytes: &[u8],
    times: usize,
) -> Result<(), Error>
    ensures { IfErr result (λ error. error ≡ Error.Unwritten i) }
{
    let mut file = open_by(rt, i, |name| fs::create(rt, name)).ok_or(Error::Unwritten(i))?;
    for _ in 0..times {
        file.write_all(bytes).map_err(|_| Error::Unwritten(i))?;
    }
    Ok(())
}

// Writes the file that argument i names anew.
pub fn write_argument(rt: &(impl Files + Env), i: usize, bytes: &[u8]) -> Result<(), Error>
    ensures { IfErr result (λ error. error ≡ Error.Unwritten i) }
{
    write_repeated(rt, i, bytes, 1)
}

// Whether two arguments are the same text.
pub fn is_same_argument(rt: &impl Env, i: usize, j: usize) -> bool {
    with_argument(
        rt,
        i,
        |first| with_argument(rt, j, |second| first == second),
    )
}

// The number that argument i is.
pub fn number_argument(rt: &impl Env, i: usize) -> Option<usize> {
    with_argument(rt, i, |digits| text::number_of(digits))
}
