// What the scanner and the crates below it answer to bad input. The cases are text, one to a line:
// a label, a colon and the words of the case. The label is written as it is, then each call of the
// case with its answer. A line without a colon is a heading.
//
// A case starts with the registers of `FRESH`; the buffers keep what they hold. Its words:
// - a small letter and a number: the register with that letter, see `registers`
// - bytes between two `'`: the source, see `meant`
// - a capital and a small letter: a call. The capital says of what:
//   U utf8, K keywords and kinds, P position, E errors, S the scanner,
//   X parts of the source and of the area, T the table
#![tactic(auto)]

mod cases;
mod machine;
mod places;
mod registers;
mod scans;
mod show;
mod texts;

use arrayvec::ArrayVec;
use cases::Reader;
use show::Output;
use std::io;
use std::io::Read;

// The byte that a byte of the cases stands for.
fn meant(byte: u8) -> u8 {
    match byte {
        b';' => b'\n',
        b'@' => b'\r',
        b'#' => 0x80,
        b'&' => 0xA0,
        b'~' => 0xED,
        b'$' => 0xF5,
        b'!' => 0xFF,
        _ => byte,
    }
}

// Puts the bytes that are meant in place of those that stand for them.
fn replace_bytes(cases: &mut [u8]) {
    for byte in cases {
        *byte = meant(*byte);
    }
}

fn run(cases: &mut [u8], out: Output) {
    replace_bytes(cases);
    let mut reader = Reader::new(out);
    for (at, byte) in cases.iter().enumerate() {
        reader.read(cases, at, *byte);
    }
}

// The most bytes that the cases have.
const MOST_BYTES: usize = 16_384;

// A read that fails ends the cases.
fn main(rt: HostRuntime) {
    let mut cases = ArrayVec::<u8, MOST_BYTES>::new();
    let _ = io::copy(&mut rt.stdin().take(MOST_BYTES as u64), &mut cases);
    run(cases.as_mut_slice(), Output(rt.stdout()));
}
