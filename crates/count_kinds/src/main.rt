// The counting program: how many records of each kind the list on standard input has, the share of the typical ones, and the sum. Run on
// document 01's example.
#![tactic(auto)]

use std::io;

fn main(rt: HostRuntime) -> io::Result<()> {
    console::run(&rt)
}
