// Says what one dot shows and which bytes of RAM it comes from:
// nickdot RAM WRITES LINE DOT [EXTERNAL-BYTE]
#![tactic(auto)]

ghost use Rattle.std.specs.Prelude.{◌≡◌};
ghost use Rattle.nick.specs.Numbers.{byte_at};
ghost use Rattle.nick.specs.Direct.{answered};
ghost use Rattle.nickdot.specs.DotAfterWrites.{answer_after};

use files::{Error, Inputs, RAM_ROOM, WRITES_ROOM};
use nick::{Answer, Ram, Refusal, Sources};
use std::env::Env;
use std::rt::Files;

// The arguments after RAM and WRITES.
const LINE: usize = 3;

const DOT: usize = 4;

const EXTERNAL: usize = 5;

const USAGE: &str =
    "usage: nickdot RAM WRITES LINE DOT [EXTERNAL-BYTE]; WRITES is pairs of bytes, port and value, at most 32,768";

// The byte at an address.
fn byte_at(ram: &Ram, address: u16) -> u8
    ensures { result ≡ byte_at ram.now address }
{
    ram[usize::from(address)]
}

// Prints an address that the dot comes from, and the byte there.
fn print_source(rt: &impl Print, ram: &Ram, address: u16) {
    let byte = byte_at(ram, address);
    let _ = println!(rt; "from address {address}: {byte}");
}

// Prints where the dot comes from.
fn print_sources(rt: &impl Print, ram: &Ram, sources: Sources) {
    match sources {
        Sources::Nothing => {
            let _ = rt.println("from no byte of RAM (border, blanking or unused mode)");
        }
        Sources::One(address) => print_source(rt, ram, address),
        Sources::Two(first, second) => {
            print_source(rt, ram, first);
            print_source(rt, ram, second);
        }
    }
}

// The direct answer from the state that the writes leave.
#[tactic(auto, unfolding(files::specs::Writes::after_writes))]
fn answer(inputs: Inputs<'_>, line: usize, dot: usize, external: u8) -> Result<Answer, Refusal>
    ensures { answered result ≡ answer_after inputs.entry.writes.now inputs.entry.ram.now line dot external }
{
    let (state, written) = files::apply_writes(inputs.writes);
    written?;
    direct::dot(state, inputs.ram, line, dot, external)
}

// Prints the answer, with what RAM holds. There is an answer only where RAM is whole.
fn print_answer(rt: &impl Print, ram: &[u8], answer: Answer) -> Result<(), Error> {
    let ram = refusals::whole(ram)?;
    files::print_colour(rt, answer.colour);
    print_sources(rt, ram, answer.sources);
    Ok(())
}

// The external byte: 0 where the argument is absent.
fn external_asked(rt: &impl Env) -> Option<u8> {
    if !files::is_given(rt, EXTERNAL) {
        return Some(0);
    }
    u8::try_from(files::number_argument(rt, EXTERNAL)?).ok()
}

// Reads the files and answers. The buffers are in a function that begins with them: else they are made zero twice.
fn answer_files(
    rt: &(impl Files + Env + Print),
    line: usize,
    dot: usize,
    external: u8,
) -> Result<(), Error> {
    let mut ram = [0u8; RAM_ROOM];
    let mut writes = [0u8; WRITES_ROOM];
    let inputs = files::read_inputs(rt, &mut ram, &mut writes)?;
    let answer = answer(inputs, line, dot, external)?;
    print_answer(rt, inputs.ram, answer)
}

// Does what the arguments ask.
fn run(rt: &(impl Files + Env + Print)) -> Result<(), Error> {
    let count = files::argument_count(rt);
    if count <= DOT || EXTERNAL + 1 < count {
        return Err(Error::Usage);
    }
    let external = external_asked(rt).ok_or(Error::Usage)?;
    let line = files::number_argument(rt, LINE).ok_or(Error::Usage)?;
    let dot = files::number_argument(rt, DOT).ok_or(Error::Usage)?;
    answer_files(rt, line, dot, external)
}

fn main(rt: HostRuntime) {
    files::report(&rt, run(&rt), USAGE);
}
