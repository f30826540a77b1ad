// Prints every refusal as the programs print it, in the order of their numbers; 11 is given by no call.
#![tactic(auto)]

fn main(rt: HostRuntime) {
    for number in 1..=12u8 {
        files::print_refusal_of(&rt, &"", number);
    }
}
