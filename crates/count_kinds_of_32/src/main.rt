// The counting program, run on a list of 32 records with two of kind 31, of which one is typical.
#![tactic(auto)]

use std::io;

fn main(rt: HostRuntime) -> io::Result<()> {
    console::run(&rt)
}
