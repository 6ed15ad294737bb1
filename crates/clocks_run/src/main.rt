// Runs the calls on dots, clocks, text, contexts and a clock held in place on good, bad and boundary values, and prints for each its refusal number and what it carries.
// The file `stdout` beside this folder is written by hand from document 01, never by this program.
#![tactic(auto)]

mod clock_calls;
mod dot_calls;
mod edge_calls;
mod in_place_calls;
mod samples;
mod say;

use std::io;

fn main(rt: HostRuntime) -> io::Result<()> {
    dot_calls::successors(&rt)?;
    dot_calls::comparisons(&rt)?;
    clock_calls::readings(&rt)?;
    clock_calls::emptiness(&rt)?;
    clock_calls::successors(&rt)?;
    clock_calls::places(&rt)?;
    clock_calls::applies(&rt)?;
    clock_calls::resets(&rt)?;
    clock_calls::commons(&rt)?;
    clock_calls::orders(&rt)?;
    clock_calls::rivals(&rt)?;
    clock_calls::validations(&rt)?;
    edge_calls::bad_records(&rt)?;
    edge_calls::crowded(&rt)?;
    edge_calls::texts(&rt)?;
    edge_calls::contexts(&rt)?;
    in_place_calls::good(&rt)?;
    in_place_calls::bad(&rt)?;
    in_place_calls::crowded(&rt)
}
