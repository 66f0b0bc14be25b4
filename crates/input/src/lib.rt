// What the programs read.
#![tactic(auto)]

ghost use Rattle.std.specs.Prelude.{◌≤◌, IfOk, vec_len};

use std::io;
use std::io::Read;

// How much of its standard input a program takes as the tape.
const TAPE_LIMIT: usize = 65_536;

// The beginning of standard input. That no more than the limit is read is not promised by what reads it, so it is cut there.
pub fn read<const LIMIT: usize>(rt: &HostRuntime) -> io::Result<Vec<u8>>
    ensures { IfOk result (λ bytes. vec_len bytes ≤ LIMIT) }
{
    let mut bytes = Vec::new(rt.alloc());
    let _ = rt.stdin().take(LIMIT as u64).read_to_end(&mut bytes)?;
    bytes.truncate(LIMIT);
    Ok(bytes)
}

// The tape on standard input.
pub fn read_tape(rt: &HostRuntime) -> io::Result<Vec<u8>>
    ensures { IfOk result (λ tape. vec_len tape ≤ 65536) }
{
    read::<TAPE_LIMIT>(rt)
}
