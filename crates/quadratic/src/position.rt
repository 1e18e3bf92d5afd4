ghost use Rattle.std.specs.Prelude.{◌≡◌, ◌*◌, ◌<◌, ◌==◌, length, position};
ghost use Rattle.quadratic.specs.Positions.{name_at, names, first, stray, unused};
ghost use Rattle.quadratic.specs.Refusals.{found};

// The variable at wire position `p`: the first of pair `p`, and past those the second of pair `p - n`.
pub(crate) fn variable_at(pairs: &[(usize, usize)], p: usize) -> usize
    requires { p < 2 * length pairs.now }
    ensures { result ≡ name_at pairs.now p }
{
    let n = pairs.len();
    if p < n { pairs[p].0 } else { pairs[p - n].1 }
}

// The first position whose variable is `i`: on the left, or else on the right.
pub(crate) fn first_position(pairs: &[(usize, usize)], i: usize) -> Option<usize>
    ensures { result ≡ position (λ x. i == x) (names pairs.now) }
{
    if let Some(g) = pairs.iter().position(|pair| i == pair.0) {
        return Some(g);
    }
    let g = pairs.iter().position(|pair| i == pair.1)?;
    Some(pairs.len() + g)
}

// The first pair that names a variable which is not below `variables`.
pub(crate) fn first_stray(variables: usize, pairs: &[(usize, usize)]) -> Option<usize>
    ensures { result ≡ found (length pairs.now) (stray variables pairs.now) }
{
    pairs
        .iter()
        .position(|&(i, j)| i >= variables || j >= variables)
}

// The first variable that is in no pair.
pub(crate) fn first_unused(variables: usize, pairs: &[(usize, usize)]) -> Option<usize>
    ensures { result ≡ found variables (unused variables pairs.now) }
{
    (0..variables).find(|&i| is_unused(pairs, i))
}

// Whether variable `i` is in no pair. One pass, which ends at the first pair that has it on either side.
fn is_unused(pairs: &[(usize, usize)], i: usize) -> bool
    ensures { result ≡ (first pairs.now i == 2 * length pairs.now) }
{
    !pairs.iter().any(|pair| i == pair.0 || i == pair.1)
}
