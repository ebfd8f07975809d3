// Calls of the crates that know characters, keywords and kinds.
use crate::show::Output;

// U: of the source, n and i.
pub(crate) fn utf8(source: &[u8], function: u8, n: usize, i: usize, out: Output) {
    let code = (n % 4294967296) as u32;
    match function {
        b'r' => out.show(utf8::char_at(source, n)),
        b'c' => out.show(validation::check(source)),
        b'l' => out.show(encoding::encoded_len(code)),
        b'b' => out.show(usize::from(encoding::encoded_byte(code, i))),
        _ => out.show(utf8::sequence_len((n % 256) as u8)),
    }
}

// K: of the source and n.
pub(crate) fn kinds(source: &[u8], function: u8, n: usize, out: Output) {
    let kind = (n % 256) as u8;
    match function {
        b'w' => out.show(keywords::ident_token(source, n) as usize),
        b'p' => out.show(kinds::precedence(kind)),
        b'k' => out.show(kinds::is_keyword(kind)),
        _ => out.show(kinds::name(kind).len()),
    }
}
