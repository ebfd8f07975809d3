// Checks what it reads from standard input, up to 65,536 bytes, 100,000 times over, and prints the
// last answer: the number of characters, or the place of a byte that belongs to none.
#![tactic(auto)]

use std::io::Read;

fn check_often(text: &mut [u8]) -> usize {
    let mut last = 0;
    for k in 0..100_000 {
        // a store into the text, so that no check can be left out
        if let Some(byte) = text.get_mut(k % 8) {
            *byte = b'A';
        }
        last = validation::check(text).unwrap_or_else(|bad| bad.place);
    }
    last
}

fn main(rt: HostRuntime) -> std::io::Result<()> {
    let mut text = [0u8; 65536];
    let n = rt.stdin().read(&mut text)?;
    print!(rt; "{}", check_often(&mut text[..n]))
}
