// Reads Lyapunov exponents from standard input, binary64 and little-endian, and prints their dimension and entropy.
//
// The work is `report::report`, which is proved to give every byte of the text. One byte more than 256 exponents is
// enough to see that the input is too long. Further stored runs are in `spectrum_cases`.
#![tactic(auto)]

use arrayvec::ArrayVec;
use std::io;
use std::io::{Read, Write};

const LONGEST: usize = 2049;

fn main(rt: HostRuntime) -> io::Result<()> {
    let mut input = ArrayVec::<u8, LONGEST>::new();
    io::copy(&mut rt.stdin().take(LONGEST as u64), &mut input)?;
    rt.stdout().write_all(report::report(&input).as_bytes())
}
