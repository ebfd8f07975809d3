// Where a token starts.
ghost use Rattle.std.specs.Prelude.{ℕ, ◌<◌, length, get_or};

// A place in a source, and the position of a token that starts there. It lies before a safe place,
// and that in the source. (What the type of the source says of its bytes is said once more, since
// a proof does not find that in a struct.)
#[derive(Clone, Copy)]
pub(crate) struct Start<'a> {
    pub(crate) src: &'a [u8],
    pub(crate) at: usize,
    pub(crate) safe: usize,
    pub(crate) position: usize,
    ghost early: { at < safe },
    ghost inside: { safe < length src.now },
    ghost bytes: { (p : ℕ) → get_or src.now p 0 < 256 },
}
