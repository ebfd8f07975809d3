// The pass that only reads: the blanks, and the token after them.
ghost use Rattle.std.specs.Prelude.{◌+◌, ◌-◌, ◌≤◌, ◌≡◌, length};
ghost use Rattle.scanner.specs.Steps.{Reads};

use blanks::Skipped;
use lexer::Lexed;
use state::State;

// The blanks and the token that were read, and how many characters they have together. (The state
// goes beside a pass and not in it: a pass is what was read from there, and the definitions of the
// steps take the two apart.)
#[derive(Clone, Copy)]
pub(crate) struct Pass {
    pub(crate) blanks: Skipped,
    pub(crate) token: Lexed,
    pub(crate) chars: usize,
}

// Reads the blanks at the state's place and the token after them.
pub(crate) fn read_next(src: &[u8], state: State) -> Pass
    requires { state.place ≤ length src.now }
    ensures { Reads src.now state result.blanks result.token × (result.chars ≡ result.blanks.end - state.place + result.token.chars) }
{
    let blanks = blanks::skip_blanks(src, state.place, state.mark);
    let token = lexer::lex_token(src, blanks.end, state.mark);
    let chars = blanks.end - state.place + token.chars;
    Pass {
        blanks,
        token,
        chars,
    }
}
