// A state in nine numbers.
ghost use Rattle.std.specs.Prelude.{◌≡◌, get_or};
ghost use Rattle.state.specs.Layout.{bit, state_in, state_written};

use crate::state::State;
use position::Line;

// 1 for true.
pub fn bit_of(b: bool) -> usize
    ensures { result ≡ bit b }
{
    usize::from(b)
}

// The number at an index, or 0 after the last.
pub fn number_at(n: &[usize], at: usize) -> usize
    ensures { result ≡ get_or n.now at 0 }
{
    n.get(at).copied().unwrap_or(0)
}

// The state that the first numbers of a slice are; numbers that it lacks are 0.
pub fn state_in(n: &[usize]) -> State
    ensures { result ≡ state_in n.now }
{
    State {
        base: number_at(n, 0),
        size: number_at(n, 1),
        place: number_at(n, 2),
        offset: number_at(n, 3),
        mark: number_at(n, 4) != 0,
        lines: number_at(n, 5),
        errors: number_at(n, 6),
        line: Line {
            number: number_at(n, 7),
            start: number_at(n, 8),
        },
    }
}

// Writes a state to the first numbers of a slice; one that is too short is left as it is.
pub fn put_state(s: State, n: &mut [usize])
    ensures { n.new ≡ state_written n.old s }
{
    if n.len() < State::NUMBERS {
        return;
    }
    n[..State::NUMBERS].copy_from_slice(&[
        s.base,
        s.size,
        s.place,
        s.offset,
        bit_of(s.mark),
        s.lines,
        s.errors,
        s.line.number,
        s.line.start,
    ]);
}
