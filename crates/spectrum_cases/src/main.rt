// Prints the report of several parts of one input, since a crate has one stored run.
//
// The input is 256 finite floats, a NaN, and three floats whose sum overflows. The parts are no bytes, answers, each
// refusal, and exactly 2,048 and 2,049 bytes.
#![tactic(auto)]

use arrayvec::ArrayVec;
use std::io;
use std::io::{Read, Write};

// Where each part begins, and where it ends.
const CASES: [(usize, usize); 16] = [
    (0, 0),
    (0, 7),
    (0, 24),
    (0, 25),
    (0, 2048),
    (0, 2049),
    (0, 2056),
    (8, 2056),
    (1976, 2056),
    (1968, 2056),
    (2048, 2056),
    (2056, 2080),
    (24, 48),
    (48, 56),
    (16, 32),
    (56, 72),
];

const LONGEST: usize = 2080;

fn main(rt: HostRuntime) -> io::Result<()> {
    let mut input = ArrayVec::<u8, LONGEST>::new();
    io::copy(&mut rt.stdin().take(LONGEST as u64), &mut input)?;
    for (start, end) in CASES {
        if let Some(part) = input.get(start..end) {
            rt.stdout().write_all(report::report(part).as_bytes())?;
        }
    }
    Ok(())
}
