// Prints how many bytes of standard input the programs take as the tape. A contract says that no more than the limit is taken, but none can say that
// all up to it is: the run of this program does.
#![tactic(auto)]

use input::read_tape;
use std::io;

fn main(rt: HostRuntime) -> io::Result<()> {
    let tape = read_tape(&rt)?;
    let count = tape.len();
    println!(rt; "{count} bytes taken")
}
