// What a scan writes besides line starts: the record of its error, and a text and a value that
// differ from the source's bytes.
ghost use Rattle.std.specs.Prelude.{◌≡◌, ◌+◌, ◌*◌, ◌≤◌, ◌<◌, ◌^◌, length};
ghost use Rattle.std.proofs.lemmas.List.Edits.{sets};
ghost use Rattle.errors.specs.Faults.{fault_number};
ghost use Rattle.errors.specs.Layout.{width, numbers};
ghost use Rattle.errors.specs.Errors.{room_of};
ghost use Rattle.reading.specs.Reading.{error_at};
ghost use Rattle.lexer.specs.Placed.{said};
ghost use Rattle.scanner.specs.Scan.{written, to_area};
ghost use Rattle.scanner.specs.Steps.{text_len, to_write};

use errors::{Error, Fault};
use lexer::{Lexed, Text, Value};
use state::State;

// Records an error at the offset that was reached, after the first `count` of the list.
#[tactic(auto, using(errors::proofs::Laws::add_gave))]
pub(crate) fn write_error(after: State, list: &mut [usize], count: usize, fault: Fault)
    requires { (after.line.start ≤ after.offset) × (after.offset + 1 < 2 ^ 64) × (count < room_of list.old) }
    ensures { list.new ≡ sets list.old (count * width) (numbers (error_at (fault_number fault) after.offset after.line)) }
{
    let offset = after.offset;
    let column = offset - after.line.start + 1;
    let error = Error {
        offset,
        line: after.line.number,
        column,
        number: fault as usize,
    };
    let _ = errors::add(list, count, error);
}

// Writes the text of a token at the area's start.
fn write_text(src: &[u8], start: usize, x: Lexed, area: &mut [u8])
    requires { start ≤ x.end }
    ensures { area.new ≡ sets area.old 0 (said src.now start x).lexeme.text }
{
    match x.text.making {
        Text::Empty => {}
        Text::AsRead => writing::write_encoded(src, start, x.chars, area, 0),
        Text::Number(spelling) => writing::write_number(
            src,
            start,
            x.end - start,
            spelling,
            area,
            0,
        ),
        Text::WithoutCr => writing::write_clean(src, start, x.chars, area, 0),
        Text::WithLf => writing::write_line(src, start, x.chars, area, 0),
    }
}

// Writes the value of a token from a place of the area on.
fn write_value(src: &[u8], start: usize, x: Lexed, area: &mut [u8], to: usize)
    requires { start + 1 < 2 ^ 64 }
    ensures { area.new ≡ sets area.old to (said src.now start x).lexeme.value }
{
    match x.value.making {
        Value::Empty => {}
        Value::Interpreted => writing::write_interpreted(src, start + 1, area, to),
        Value::Raw => writing::write_raw(src, start + 1, area, to),
    }
}

// Writes what differs from the source's bytes: text first, then value.
pub(crate) fn write_area(src: &[u8], start: usize, x: Lexed, area: &mut [u8])
    requires { (start ≤ x.end) × (start + 1 < 2 ^ 64) × (to_write x ≤ length area.old)
        × (length (to_area (said src.now start x)) ≡ to_write x) × (length (said src.now start x).lexeme.text ≡ text_len x) }
    ensures { area.new ≡ written (to_area (said src.now start x)) area.old }
{
    let mut to = 0;
    if x.text.differs {
        write_text(src, start, x, area);
        to = x.text.bytes + 2 * x.strays;
    }
    if x.value.differs {
        write_value(src, start, x, area, to);
    }
}
