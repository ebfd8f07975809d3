// Lists the tokens of what it reads from standard input, then the errors and the count of lines. A
// refusal ends the listing. The listing is in numbers, or with the argument `--names` one for
// people.
#![tactic(auto)]

mod caret;
mod listing;
mod output;
mod people;
mod show;
mod texts;

use arrayvec::ArrayVec;
use listing::{Form, Lent, Listing};
use output::Output;
use people::Names;
use show::Numbers;
use std::env::Env;
use std::io;
use std::io::Read;

// Is the first argument `--names`?
fn wants_names(rt: &HostRuntime) -> bool {
    let mut word = [0u8; 8];
    match rt.arg(1, &mut word) {
        Ok(n) => &word[..n] == b"--names".as_slice(),
        Err(_) => false,
    }
}

// One byte more than the longest text has.
const MOST_READ: usize = listing::MOST_BYTES + 1;

fn write_listing<F: Form>(form: &F, src: &[u8], lent: Lent<'_>, out: &mut Output) {
    Listing { form, src, out }.write(lent);
}

// A read that fails ends the text.
fn main(rt: HostRuntime) {
    let mut src = ArrayVec::<u8, MOST_READ>::new();
    let _ = io::copy(&mut rt.stdin().take(MOST_READ as u64), &mut src);
    let mut area = [0u8; 65536];
    let mut table = [0usize; 16384];
    // 1,024 errors of 4 numbers
    let mut list = [0usize; 4096];
    let lent = Lent {
        table: &mut table,
        list: &mut list,
        area: &mut area,
    };
    let mut out = Output::new(rt.stdout());
    if wants_names(&rt) {
        write_listing(&Names, src.as_slice(), lent, &mut out);
    } else {
        write_listing(&Numbers, src.as_slice(), lent, &mut out);
    }
}
