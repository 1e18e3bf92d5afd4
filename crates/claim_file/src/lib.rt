// Reads a claim from a text.
#![tactic(auto)]

ghost use Rattle.std.specs.Prelude.{◌≡◌, [], ◌∷◌, Some, find};
ghost use Rattle.std.specs.Str.{bytes_eq};
ghost use Rattle.claim_file.specs.declared.FieldName.TheVariants.{Mersenne31, Gf256};
ghost use Rattle.claim_file.specs.declared.ReadFault.TheVariants.{NoMemory};
ghost use Rattle.std.specs.Option.{option_to_list};
ghost use Rattle.claim_file.specs.Faults.{told, fault_text};
ghost use Rattle.claim_file.specs.Numbers.{number_of};
ghost use Rattle.claim_file.specs.Grammar.{order, element_of, heading, read_spec};
ghost use Rattle.claim_file.specs.Written.{name_of, ReadsBack};
ghost use Rattle.claim_file.specs.Answer.{meaning, Tells, Reads};

use std::alloc::{AllocError, AllocFailed, Global};
use std::error::Error;
use std::fmt;

mod numbers;
mod words;

use numbers::number;
use words::{Keyword, Words};

// The field that a claim is over.
#[derive(Clone, Copy, PartialEq, Eq, Debug)]
pub enum FieldName {
    Mersenne31,
    Gf256,
}

impl FieldName {
    // Each field.
    const ALL: [FieldName; 2] = [FieldName::Mersenne31, FieldName::Gf256];

    // The elements of the field are the numbers below this.
    pub fn order(self) -> u32
        ensures { result ≡ order self }
    {
        match self {
            FieldName::Mersenne31 => 2_147_483_647,
            FieldName::Gf256 => 256,
        }
    }

    // How a claim names the field.
    fn name(self) -> &'static str
        ensures { result.now ≡ name_of self }
    {
        match self {
            FieldName::Mersenne31 => "mersenne31",
            FieldName::Gf256 => "gf256",
        }
    }

    // The field that a claim names so, if there is one.
    fn named(name: &[u8]) -> Option<FieldName>
        ensures { result ≡ find (λ field. bytes_eq name.now (name_of field)) (Mersenne31 ∷ Gf256 ∷ []) }
    {
        FieldName::ALL
            .into_iter()
            .find(|field| field.name().as_bytes() == name)
    }
}

impl fmt::Display for FieldName {
    ghost output = { λ field. Some (name_of field) };

    fn fmt<W: fmt::Write>(&self, f: &mut fmt::Formatter<W>) -> fmt::Result {
        f.write_str(self.name())
    }
}

// What stands before the lists of a claim.
#[derive(Clone, Copy)]
struct Heading {
    field: FieldName,
    m: u32,
    n: u32,
}

// A claim as its text says it.
#[derive(PartialEq, Eq, Debug, Drop)]
pub struct ClaimFile {
    pub field: FieldName,
    pub m: u32,
    pub n: u32,
    pub matrix: Vec<u32>,
    pub vector: Vec<u32>,
    pub left: Vec<u32>,
    pub right: Vec<u32>,
    pub out: Vec<u32>,
}

// Why a text is no claim, with the line of the fault.
#[derive(Clone, Copy, PartialEq, Eq, Debug)]
pub enum ReadFault {
    // 71: a word that is not the one due there
    UnexpectedWord { line: usize },
    // 72: a number that is not below its bound
    TooLarge { line: usize },
    // 73: the text ends before the keyword `out` came
    Unfinished { line: usize },
    // 74: want of memory
    NoMemory,
}

impl ReadFault {
    // The number of the fault.
    pub fn number(self) -> u32
        ensures { result ≡ (told self).0 }
    {
        match self {
            ReadFault::UnexpectedWord { .. } => 71,
            ReadFault::TooLarge { .. } => 72,
            ReadFault::Unfinished { .. } => 73,
            ReadFault::NoMemory => 74,
        }
    }

    // The line of the fault, where it has one.
    pub fn line(self) -> Option<usize>
        ensures { option_to_list result ≡ (told self).1 }
    {
        match self {
            ReadFault::UnexpectedWord { line }
            | ReadFault::TooLarge { line }
            | ReadFault::Unfinished { line } => Some(line),
            ReadFault::NoMemory => None,
        }
    }
}

impl fmt::Display for ReadFault {
    ghost output = { λ fault. Some (fault_text fault) };

    fn fmt<W: fmt::Write>(&self, f: &mut fmt::Formatter<W>) -> fmt::Result {
        f.write_str(match self {
            ReadFault::UnexpectedWord { .. } => "this word is not the one that is due here",
            ReadFault::TooLarge { .. } => "this number is too large",
            ReadFault::Unfinished { .. } => "the file ends before its last section",
            ReadFault::NoMemory => "no memory is left",
        })
    }
}

impl Error for ReadFault {}

impl From<AllocError> for ReadFault {
    ghost from_gives = { λ _ r. r ≡ NoMemory };

    fn from(_e: AllocError) -> ReadFault {
        ReadFault::NoMemory
    }
}

impl<T: Drop> From<AllocFailed<T>> for ReadFault {
    ghost from_gives = { λ _ r. r ≡ NoMemory };

    fn from(_e: AllocFailed<T>) -> ReadFault {
        ReadFault::NoMemory
    }
}

// `field NAME m NUMBER n NUMBER matrix`.
fn read_heading(words: &mut Words<'_>) -> Result<Heading, ReadFault>
    ensures { Reads (λ x. x) words.old result words.new heading }
{
    words.keyword(Keyword::Field)?;
    let field = words.field_name()?;
    let m = words.number_after(Keyword::M)?;
    let n = words.number_after(Keyword::N)?;
    words.keyword(Keyword::Matrix)?;
    Ok(Heading { field, m, n })
}

// The claim that a text says, or its first fault.
pub fn read(heap: Global, text: &[u8]) -> Result<ClaimFile, ReadFault>
    ensures { Tells meaning result (read_spec text.now) }
{
    let mut words = Words::new(text);
    let Heading { field, m, n } = read_heading(&mut words)?;
    let matrix = words.elements(heap, field, Some(Keyword::Vector))?;
    let vector = words.elements(heap, field, Some(Keyword::Left))?;
    let left = words.elements(heap, field, Some(Keyword::Right))?;
    let right = words.elements(heap, field, Some(Keyword::Out))?;
    let out = words.elements(heap, field, None)?;
    Ok(ClaimFile {
        field,
        m,
        n,
        matrix,
        vector,
        left,
        right,
        out,
    })
}

// The element of a field that a word spells, by its number, where it spells one.
pub fn element(field: FieldName, word: &[u8]) -> Option<u32>
    ensures { result ≡ element_of field (number_of word.now) }
{
    number(word)
        .and_then(|value| u32::try_from(value).ok())
        .filter(|&value| value < field.order())
}

// Every claim that a file can say is read back from the text that is written of it.
pub fn reads_back()
    ensures { ReadsBack }
{}
