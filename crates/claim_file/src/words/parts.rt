// The parts of a claim file, each read from the words ahead.
ghost use Rattle.std.specs.Prelude.{◌≡◌, ◌^◌, ◌≤◌, Ok, Err, vec_items, MatchResult};
ghost use Rattle.std.specs.Str.{bytes_eq};
ghost use Rattle.claim_file.specs.declared.ReadFault.TheVariants.{UnexpectedWord, Unfinished};
ghost use Rattle.claim_file.specs.Lexical.{last_line};
ghost use Rattle.claim_file.specs.State.{text_of, located};
ghost use Rattle.claim_file.specs.Faults.{told};
ghost use Rattle.claim_file.specs.Grammar.{order, letters, value_of, next_word, keyword, field_name, number_after, ends, numbers};
ghost use Rattle.claim_file.specs.Answer.{Reads};

use super::lex::last_line;
use super::{Keyword, Word, Words};
use crate::numbers::{CAP, number};
use crate::{FieldName, ReadFault};
use std::alloc::Global;

impl Keyword {
    // How the keyword is spelled.
    fn name(self) -> &'static str
        ensures { result.now ≡ letters self }
    {
        match self {
            Keyword::Field => "field",
            Keyword::M => "m",
            Keyword::N => "n",
            Keyword::Matrix => "matrix",
            Keyword::Vector => "vector",
            Keyword::Left => "left",
            Keyword::Right => "right",
            Keyword::Out => "out",
        }
    }
}

impl Word<'_> {
    // Whether the word is spelled so.
    fn is(&self, name: &str) -> bool
        ensures { result ≡ bytes_eq self.now.bytes.now name.now }
    {
        self.bytes == name.as_bytes()
    }

    // Whether a list that goes up to a keyword, or to the text's end, ends with the word.
    fn ends(&self, end: Option<Keyword>) -> bool
        ensures { result ≡ ends end (located self.now) }
    {
        match end {
            Some(key) => self.is(key.name()),
            None => false,
        }
    }

    // The fault of a word that is not due where it stands.
    fn unexpected(&self) -> ReadFault
        ensures { result ≡ UnexpectedWord self.now.line }
    {
        ReadFault::UnexpectedWord { line: self.line }
    }

    // The number below the bound that the word spells.
    fn value(&self, bound: u64) -> Result<u32, ReadFault>
        requires { bound ≤ 2 ^ 32 }
        ensures { MatchResult result (λ v. value_of bound (located self.now) ≡ Ok v) (λ e. value_of bound (located self.now) ≡ Err (told e)) }
    {
        match number(self.bytes) {
            None => Err(self.unexpected()),
            Some(v) if v < bound => Ok(v as u32),
            Some(_) => Err(ReadFault::TooLarge { line: self.line }),
        }
    }
}

impl<'a> Words<'a> {
    // The fault of a text that ends too early.
    fn unfinished(&self) -> ReadFault
        ensures { result ≡ Unfinished (last_line 1 (text_of self.now)) }
    {
        ReadFault::Unfinished {
            line: last_line(self.text),
        }
    }

    // The next word, which must be there.
    fn due(&mut self) -> Result<Word<'a>, ReadFault>
        ensures { Reads located self.old result self.new next_word }
    {
        match self.next_word() {
            Some(word) => Ok(word),
            None => Err(self.unfinished()),
        }
    }

    // The keyword.
    pub(crate) fn keyword(&mut self, key: Keyword) -> Result<(), ReadFault>
        ensures { Reads (λ x. x) self.old result self.new (λ last. keyword last key) }
    {
        let word = self.due()?;
        if word.is(key.name()) {
            Ok(())
        } else {
            Err(word.unexpected())
        }
    }

    // The name of a field.
    pub(crate) fn field_name(&mut self) -> Result<FieldName, ReadFault>
        ensures { Reads (λ x. x) self.old result self.new field_name }
    {
        let word = self.due()?;
        FieldName::named(word.bytes).ok_or(word.unexpected())
    }

    // The keyword, and one number below 2^32.
    pub(crate) fn number_after(&mut self, key: Keyword) -> Result<u32, ReadFault>
        ensures { Reads (λ x. x) self.old result self.new (λ last. number_after last key) }
    {
        self.keyword(key)?;
        self.due()?.value(CAP)
    }

    // The elements of the field up to the keyword, which is taken too, or up to the text's end.
    pub(crate) fn elements(
        &mut self,
        heap: Global,
        field: FieldName,
        end: Option<Keyword>,
    ) -> Result<Vec<u32>, ReadFault>
        ensures { Reads vec_items self.old result self.new (λ last. numbers last (order field) end) }
    {
        let bound = u64::from(field.order());
        let mut list = Vec::new(heap);
        while let Some(word) = self.next_word() {
            if word.ends(end) {
                return Ok(list);
            }
            list.push(word.value(bound)?)?;
        }
        match end {
            Some(_) => Err(self.unfinished()),
            None => Ok(list),
        }
    }
}
