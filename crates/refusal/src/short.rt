// A slice that is too short for what it is to hold.
ghost use Rattle.std.specs.Prelude.{◌≡◌};
ghost use Rattle.refusal.specs.Short.{too_short};

// Of two slices, by their lengths `a` and `b`: is one shorter than the `n` or `m` numbers that it
// is to hold?
#[tactic(auto, unfolding(crate::specs::Short::too_short))]
pub fn too_short(a: usize, n: usize, b: usize, m: usize) -> bool
    ensures { result ≡ too_short a n b m }
{
    a < n || b < m
}
