// Whether two arguments name one file.
ghost use Rattle.std.specs.Prelude.{◌≡◌};
ghost use Rattle.files.specs.Same.{is_one};

use crate::argument::{PATH_MAX, is_same_argument, with_argument};
use std::env::Env;
use std::fs;
use std::os::unix::fs::MetadataExt;
use std::rt::Files;

// What tells a file from every other: the device that it is on, and its number there.
#[derive(Clone, Copy, PartialEq, Eq)]
struct File {
    device: u64,
    number: u64,
}

// The file at a path, as the operating system tells. Of a path that is not UTF-8 it is not asked.
fn file_at(rt: &impl Files, path: &[u8]) -> Option<File> {
    let told = fs::metadata(rt, str::from_utf8(path).ok()?).ok()?;
    Some(File {
        device: told.dev(),
        number: told.ino(),
    })
}

// The file that argument i names. An argument that is empty, of 4,096 bytes or more, or not UTF-8 names none.
fn file_of(rt: &(impl Files + Env), i: usize) -> Option<File> {
    with_argument(rt, i, |path| {
        if path.is_empty() || path.len() == PATH_MAX {
            return None;
        }
        file_at(rt, path)
    })
}

// Whether two files are one.
fn is_one(a: Option<File>, b: Option<File>) -> bool
    ensures { result ≡ is_one a b }
{
    a.is_some() && a == b
}

// Whether argument i is a name that is not UTF-8, of which the operating system is not asked.
fn is_unknown(rt: &impl Env, i: usize) -> bool {
    with_argument(rt, i, |path| {
        path.len() < PATH_MAX && str::from_utf8(path).is_err()
    })
}

// Whether two arguments name one file, by the same text or, where the file is there, by two names, links among them. A name that
// is not UTF-8 may be any file's, so it counts as one of the other's.
pub fn is_same_file(rt: &(impl Files + Env), i: usize, j: usize) -> bool {
    is_same_argument(rt, i, j)
        || is_unknown(rt, i)
        || is_unknown(rt, j)
        || is_one(file_of(rt, i), file_of(rt, j))
}
