// A text, read word by word.
ghost use Rattle.std.specs.Prelude.{◌+◌, ◌≤◌, length};

mod lex;
mod parts;

// A word of a text.
#[derive(Clone, Copy)]
pub(crate) struct Word<'a> {
    pub bytes: &'a [u8],
    pub line: usize,
}

// A text of which `rest` is still to be read; that begins on line `line`.
#[derive(Drop)]
pub(crate) struct Words<'a> {
    text: &'a [u8],
    rest: &'a [u8],
    line: usize,
    ghost counted: { line + length rest.now ≤ length text.now + 1 },
}

// The words that lead the parts of a claim.
#[derive(Clone, Copy)]
pub(crate) enum Keyword {
    Field,
    M,
    N,
    Matrix,
    Vector,
    Left,
    Right,
    Out,
}
