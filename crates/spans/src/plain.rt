// Blocks of 16 bytes, and runs of at most eight, that a body is read over at once.
ghost use Rattle.std.specs.Prelude.{◌≡◌, ◌+◌, ◌<◌, length};
ghost use Rattle.spans.specs.Plain.{plain_block, PlainRun};

// Are there 16 bytes at a place, none of which is to be looked at by itself? Each test is made of
// each byte: a loop of few wide steps, where `any` would stop at the first byte of which one holds.
// (`validation` asks the library's `is_ascii` of 32 bytes. One function for both would take the test:
// as a closure, which a public function cannot have without a `requires`, or as a trait with its law,
// which would be longer than the two.)
pub(crate) fn is_block(src: &[u8], at: usize, stop: u8) -> bool
    ensures { result ≡ plain_block stop src.now at }
{
    if src.len() < 16 {
        return false;
    }
    if src.len() - 16 < at {
        return false;
    }
    let mut any = false;
    for k in 0..16usize {
        let b = src[at + k];
        any = any | ((b <= b'\r') | (b > 127) | (b == stop));
    }
    !any
}

// How many of the next eight bytes, before the first other, are not to be looked at by themselves;
// none where there are fewer than eight.
pub(crate) fn run_len(src: &[u8], at: usize, stop: u8) -> usize
    requires { at < length src.now }
    ensures { PlainRun stop src.now at result × (result < 8 → at + result < length src.now) }
{
    if !swar::has_eight(src, at) {
        return 0;
    }
    let eight = swar::eight(src, at);
    let controls = swar::mark_between(eight, 0, b'\r');
    swar::before_mark(controls | swar::mark_byte(eight, stop) | swar::mark_high(eight))
}
