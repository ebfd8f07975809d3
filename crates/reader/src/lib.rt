// A thin reader: it holds the source and a place in it, and gives the next character. The functions
// over the struct are thin; the work is done by functions that take the source itself. They are
// functions and no methods: docs/PROVED.md promises each of them by its name.
#![tactic(auto)]

ghost use Rattle.std.specs.Prelude.{◌≡◌};
ghost use Rattle.utf8.specs.Chars.{char_at};
ghost use Rattle.reader.specs.Read.{read_place};

use utf8::Char;

#[derive(Clone, Copy)]
pub struct Reader<'a> {
    pub src: &'a [u8],
    pub place: usize,
}

pub fn reader_at<'a>(src: &'a [u8], place: usize) -> Reader<'a>
    ensures { (result.src ≡ src.entry) × (result.place ≡ place) }
{
    Reader { src, place }
}

// The next character, one of no bytes at the end. The reader stays where it is.
pub fn peek_char<'a>(r: Reader<'a>) -> Char
    ensures { result ≡ char_at r.entry.src.now r.entry.place }
{
    utf8::char_at(r.src, r.place)
}

// The reader after the next character; at the end it stays.
#[tactic(auto, unfolding(crate::specs::Read::read_place))]
pub fn read_char<'a>(r: Reader<'a>) -> Reader<'a>
    ensures { (result.src ≡ r.entry.src) × (result.place ≡ read_place r.entry.src.now r.entry.place) }
{
    Reader {
        src: r.src,
        place: utf8::next_place(r.src, r.place),
    }
}

pub fn place<'a>(r: Reader<'a>) -> usize
    ensures { result ≡ r.entry.place }
{
    r.place
}

// The character that a reader at a place gives.
pub fn char_from(src: &[u8], at: usize) -> Char
    ensures { result ≡ char_at src.now at }
{
    peek_char(reader_at(src, at))
}

// Where a reader is after it has read the character at a place.
pub fn place_after(src: &[u8], at: usize) -> usize
    ensures { result ≡ read_place src.now at }
{
    place(read_char(reader_at(src, at)))
}
