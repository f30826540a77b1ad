// The lines that say how a run ended and how the bench then stands.
use script::{Failure, Ran};

// The word for a switch.
fn switch(is_on: bool) -> &'static str {
    if is_on { "on" } else { "off" }
}

// Prints how a run that began ended, how many lines it painted, and the interrupt.
pub fn print_ran(rt: &impl Print, ran: Ran) {
    if let Err(Failure::Stopped(refusal, place)) = ran.outcome {
        files::print_refusal_of(rt, &format_args!("step {place}: "), refusal);
    }
    let bench = ran.bench;
    files::print_painted(rt, bench.lines);
    let (latch, enable, request) = (
        switch(bench.latch),
        switch(bench.enable),
        switch(ran.request),
    );
    let _ = println!(rt; "latch {latch}, enable {enable}, request {request}");
}
