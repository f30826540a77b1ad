// What the programs share: files and numbers named by the arguments, register writes from a file, and the lines printed.
#![tactic(auto)]

mod argument;
mod buffers;
mod error;
mod inputs;
mod outputs;
mod pair;
mod print;
mod same;
mod writes;

pub use argument::{
    argument_count, is_given, number_argument, read_argument, read_optional, write_argument,
    write_repeated,
};
pub use buffers::{Buffers, run_in_buffers};
pub use error::Error;
pub use inputs::{COMMANDS, Inputs, RAM, RAM_ROOM, WRITES, WRITES_ROOM, read_inputs};
pub use outputs::{DOTS_MOST, Places, RECORDS_MOST, begin, stamp_lines, write_outputs};
pub use pair::read_pair;
pub use print::{print_colour, print_painted, print_refusal_of, report};
pub use same::is_same_file;
pub use writes::apply_writes;
