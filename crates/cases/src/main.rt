// Runs marked cases 5 to 13 of document 01 and its limits over bytes, through the public calls, and prints for each the number, the length and
// the image. The file `stdout` beside this folder is written by hand from document 01, never by this program.
#![tactic(auto)]

mod by_context;
mod held;
mod limits;
mod marked;
mod say;

use std::io;

fn main(rt: HostRuntime) -> io::Result<()> {
    marked::first_cases(&rt)?;
    marked::waiting_cases(&rt)?;
    marked::merge_cases(&rt)?;
    marked::reset_cases(&rt)?;
    by_context::cases(&rt)?;
    limits::actors(&rt)?;
    limits::members(&rt)?;
    limits::waiting(&rt)?;
    limits::short_outputs(&rt)
}
