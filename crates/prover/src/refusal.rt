ghost use Rattle.std.specs.Prelude.{◌≡◌, Some};
ghost use Rattle.std.specs.Fmt.{padded};
ghost use Rattle.prover.specs.Refusals.{told, refusal_text};
ghost use Rattle.prover.specs.Claims.{in_range as sizes_fit};

use field::Field;
use std::error::Error;
use std::fmt;

// Why a claim is not looked at, or not proved.
#[derive(Clone, Copy, PartialEq, Eq, Debug)]
pub enum Refusal {
    // 12: m is outside 1 to 64, n outside 1 to 85, or 6n above the field's span.
    BadSize,
    // 13: the matrix, the vector or a wire has the wrong length.
    BadLength,
    // 16: the buffer is shorter than m·N + 8n cells, with N = 3n + 1.
    ShortBuffer,
    // 22: a challenge is zero.
    ZeroChallenge,
}

impl Refusal {
    // The number of the refusal.
    pub fn number(self) -> u32
        ensures { result ≡ (told self).0 }
    {
        match self {
            Refusal::BadSize => 12,
            Refusal::BadLength => 13,
            Refusal::ShortBuffer => 16,
            Refusal::ZeroChallenge => 22,
        }
    }
}

impl fmt::Display for Refusal {
    ghost output = { λ e. Some (refusal_text e) };

    ghost styled_output = { λ e spec. Some (padded spec (refusal_text e)) };

    fn fmt<W: fmt::Write>(&self, f: &mut fmt::Formatter<W>) -> fmt::Result {
        f.pad(match self {
            Refusal::BadSize =>
                "m is outside 1 to 64, n is outside 1 to 85, or 6n is above the field's span",
            Refusal::BadLength => "the matrix, the vector or a wire has the wrong length",
            Refusal::ShortBuffer => "the buffer is too short",
            Refusal::ZeroChallenge => "a challenge is zero",
        })
    }
}

impl Error for Refusal {}

pub const MOST_ROWS: usize = 64;

pub const MOST_GATES: usize = 85;

// Whether the sizes are ones that the field allows.
pub fn in_range<F: Field>(m: usize, n: usize) -> bool
    ensures { result ≡ sizes_fit F.Field.ops.span m n }
{
    1 <= m && m <= MOST_ROWS && 1 <= n && n <= MOST_GATES && 6 * n <= F::SPAN as usize
}
