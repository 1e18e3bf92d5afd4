// Cuts a text into its words.
ghost use Rattle.std.specs.Prelude.{◌≡◌, ◌+◌, ◌^◌, ◌<◌, ◌≤◌, length, ◌==◌, filter};
ghost use Rattle.std.specs.List.{position_or_len};
ghost use Rattle.claim_file.specs.Lexical.{blank, next_line, last_line, words};
ghost use Rattle.claim_file.specs.State.{text_of, ahead, apart, Passed, Taken};

use super::{Word, Words};

// Ends a line.
const LINE_END: u8 = b'\n';
// Begins a comment, which goes to the end of its line.
const COMMENT: u8 = b'#';

// Space, tab, carriage return and line end.
fn is_blank(b: u8) -> bool
    ensures { result ≡ blank b }
{
    matches!(b, b' ' | b'\t' | b'\r' | LINE_END)
}

// Whether a byte belongs to no word.
fn is_apart(b: u8) -> bool
    ensures { result ≡ apart b }
{
    is_blank(b) || b == COMMENT
}

// The line of what follows a byte.
fn line_after(line: usize, b: u8) -> usize
    requires { line + 1 < 2 ^ 64 }
    ensures { result ≡ next_line line b }
{
    if b == LINE_END { line + 1 } else { line }
}

// How many bytes at the front belong to one word.
fn word_len(rest: &[u8]) -> usize
    ensures within { result ≤ length rest.now }
    ensures first { result ≡ position_or_len apart rest.now }
{
    rest.iter().position(|&b| is_apart(b)).unwrap_or(rest.len())
}

// How many bytes at the front belong to a comment that has begun, which goes up to its line's end.
fn comment_len(rest: &[u8]) -> usize
    ensures within { result ≤ length rest.now }
    ensures first { result ≡ position_or_len (λ b. b == 10) rest.now }
{
    rest.iter()
        .position(|&b| b == LINE_END)
        .unwrap_or(rest.len())
}

// How many lines end in a text.
fn line_ends(text: &[u8]) -> usize
    ensures within { result ≤ length text.now }
    ensures count { result ≡ length (filter (λ b. b == 10) text.now) }
{
    let mut ends = 0;
    for &b in text {
        if b == LINE_END {
            ends += 1;
        }
    }
    ends
}

// The line of the last byte.
pub(crate) fn last_line(text: &[u8]) -> usize
    ensures { result ≡ last_line 1 text.now }
{
    match text.split_last() {
        Some((_, before)) => 1 + line_ends(before),
        None => 1,
    }
}

impl<'a> Words<'a> {
    // The words of a text, from its first on.
    pub(crate) fn new(text: &'a [u8]) -> Words<'a>
        ensures kept { text_of result ≡ text.now }
        ensures all { ahead result ≡ words text.now }
    {
        Words {
            text,
            rest: text,
            line: 1,
        }
    }

    // The reader behind the blanks and comments ahead, at the next word or the text's end.
    fn behind_gap(&self) -> Words<'a>
        ensures { Passed self.now result }
    {
        let (mut rest, mut line) = (self.rest, self.line);
        while let Some((&b, after)) = rest.split_first() {
            if !is_apart(b) {
                break;
            }
            if b != COMMENT {
                line = line_after(line, b);
                rest = after;
            } else if let Some((&end, behind)) = after[comment_len(after)..].split_first() {
                line = line_after(line, end);
                rest = behind;
            } else {
                rest = &[];
            }
        }
        Words {
            text: self.text,
            rest,
            line,
        }
    }

    // The next word, if there is one.
    pub(crate) fn next_word(&mut self) -> Option<Word<'a>>
        ensures { Taken self.old result self.new }
    {
        let Words { rest, line, .. } = self.behind_gap();
        // The byte that ended the gap begins the word.
        let (_, after) = rest.split_first()?;
        let (bytes, rest) = rest.split_at(1 + word_len(after));
        self.rest = rest;
        self.line = line;
        Some(Word { bytes, line })
    }
}
