// The cases of 01 that are run: a line for each, held to the file `stdout`, which was worked out from the paper.
#![tactic(auto)]

mod limits;
mod plans;
mod records;
mod refusals;
mod show;

fn main(rt: HostRuntime) {
    limits::run(&rt);
    refusals::run(&rt);
}
