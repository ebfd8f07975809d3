// Where tokens are among the numbers that a call is lent.
ghost use Rattle.std.specs.Prelude.{◌≡◌, ◌*◌};
ghost use Rattle.std.proofs.lemmas.List.Edits.{sets};
ghost use Rattle.parts.specs.Layout.{token_width, token_numbers};
ghost use Rattle.batch.specs.Many.{token_room};
ghost use Rattle.batch.specs.Run.{HasRoom};

use parts::{Token, put_token};

// How many tokens the numbers have room for.
pub(crate) fn token_room(tokens: &[usize]) -> usize
    ensures { result ≡ token_room tokens.now }
{
    tokens.len() / Token::NUMBERS
}

// Writes a token after so many others. The slice's length is known where it is cut, so that no test
// of it is left.
pub(crate) fn put_token_at(t: Token, tokens: &mut [usize], count: usize)
    requires { HasRoom count tokens.old }
    ensures { tokens.new ≡ sets tokens.old (count * token_width) (token_numbers t) }
{
    let to = count * Token::NUMBERS;
    put_token(t, &mut tokens[to..to + Token::NUMBERS]);
}
