// Errors and refusals in words.
use errors::Fault;
use refusal::Refusal;

fn fault(fault: Fault) -> &'static str {
    match fault {
        Fault::BadBinary => "bad binary number: no digits, or a digit above 1",
        Fault::BadOctal => "bad octal number: no digits, or a digit above 7",
        Fault::BadHexadecimal => "bad hexadecimal number: no digits",
        Fault::MisplacedUnderscore => "misplaced '_' in a number",
        Fault::BadExponent => "exponent has no digits",
        Fault::OpenRawString => "raw string is not closed",
        Fault::OpenComment => "comment is not closed",
        Fault::OpenQuote => "string or character literal is not closed",
        Fault::UnknownEscape => "unknown escape",
        Fault::CutEscape => "source ends inside an escape",
        Fault::BadEscape => "bad character in an escape",
        Fault::NoCodePoint => "escape is out of range: not a byte, or not a Unicode code point",
        Fault::NotOneCharacter => "character literal must have exactly one character",
        Fault::UnknownToken => "unknown token: a character that starts none, or '..'",
    }
}

// The words of an error, by its number.
pub(crate) fn error(number: usize) -> &'static str {
    Fault::try_from(number).map_or("unknown error", fault)
}

pub(crate) fn refusal(refusal: Refusal) -> &'static str {
    match refusal {
        Refusal::NotUtf8 => "source is not UTF-8",
        Refusal::TooLong => "source has more than 65,536 bytes",
        Refusal::TableFull => "source has more than 16,384 lines",
        Refusal::ListFull => "source has more than 1,024 errors",
        Refusal::AreaFull => "a token needs more than 65,536 bytes of the text area",
        _ => "unknown refusal",
    }
}
