// The random cases of second/README.md, for the programs that run the proved code on them: the generator, the head of a case,
// video RAM, the buffers, the digest, and the lines that are printed.
#![tactic(auto)]

mod buffers;
mod digest;
mod faults;
mod head;
mod lengths;
mod ram;
mod report;
mod source;

pub use buffers::{Buffers, Lent};
pub use digest::Digest;
pub use faults::{faulty_state, has_fault, ram_length};
pub use head::{Case, Head};
pub use lengths::{Heights, Lines, MOST_RECORDS};
pub use ram::{LongRam, draw_plain_ram, no_reload};
pub use report::{Family, Report, run_family};
pub use source::Source;
