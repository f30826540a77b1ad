// The lines that programs print. Where printing fails there is nowhere to tell it.
use crate::argument::with_argument;
use crate::error::Error;
use nick::{Levels, Refusal};
use std::env::Env;
use std::fmt::Display;

// Prints a refusal, given as one or by a number: its number, what it names, and its words. Any number is printed, also one that no call
// gives.
pub fn print_refusal_of(rt: &impl Print, named: &impl Display, refusal: impl Into<u8>) {
    let number: u8 = refusal.into();
    let _ = match Refusal::try_from(number) {
        Ok(refusal) => println!(rt; "refused {number}: {named}{refusal}"),
        Err(unknown) => println!(rt; "refused {number}: {named}{unknown}"),
    };
}

// Prints how many lines were painted.
pub fn print_painted(rt: &impl Print, lines: usize) {
    let _ = println!(rt; "painted {lines} lines");
}

// Prints a colour and its levels.
pub fn print_colour(rt: &impl Print, colour: u8) {
    let Levels { red, green, blue } = nick::levels_of(colour);
    let _ = println!(rt; "colour {colour}: red {red} of 7, green {green} of 7, blue {blue} of 3");
}

// Prints words and argument i, which may be no text.
fn print_argument(rt: &(impl Env + Print), words: &str, i: usize) {
    with_argument(rt, i, |path| {
        let _ = rt.print(words);
        let _ = rt.write_all(path);
        let _ = rt.println("");
    })
}

// Prints why the program did not do what it is for, where it did not.
pub fn report(rt: &(impl Env + Print), outcome: Result<(), Error>, usage: &str) {
    match outcome {
        Ok(()) => {}
        Err(Error::Usage) => {
            let _ = rt.println(usage);
        }
        Err(Error::Unread(i)) => print_argument(rt, "cannot read ", i),
        Err(Error::Unwritten(i)) => print_argument(rt, "cannot write ", i),
        Err(Error::Refused(refusal)) => print_refusal_of(rt, &"", refusal),
    }
}
