// The words of a line, one after the other.
ghost use Rattle.std.specs.Prelude.{◌≡◌, ◌∷◌, [], option_map, MatchOption};
ghost use Rattle.md_dump.specs.Forms.{words_of, told, first_number, first_maybe, first_counts, behind};
ghost use Rattle.md_dump.specs.Left.{words_left};

use crate::cut::cut;
use crate::number::number_up_to;
use md_base::Counts;

/// Reads the words of a line. Single spaces stand between them.
#[derive(Drop)]
pub(crate) struct WordReader<'a> {
    /// What wasn't read yet, or `None` behind the last word.
    pub(crate) rest: Option<&'a [u8]>,
}

impl<'a> WordReader<'a> {
    /// At the first word of a line.
    pub(crate) fn new(line: &'a [u8]) -> WordReader<'a>
        ensures { words_left result.rest ≡ words_of line.now }
    {
        WordReader { rest: Some(line) }
    }

    /// The next word.
    pub(crate) fn word(&mut self) -> Option<&'a [u8]>
        ensures { MatchOption result (words_left self.old.rest ≡ []) (λ w. words_left self.old.rest ≡ w.now ∷ words_left self.new.rest) }
    {
        let rest = self.rest?;
        match cut(rest, b' ') {
            Some((word, after)) => {
                self.rest = Some(after);
                Some(word)
            }
            None => {
                self.rest = None;
                Some(rest)
            }
        }
    }

    /// The next word, a number of 32 bits.
    pub(crate) fn number(&mut self) -> Option<u32>
        ensures { first_number 4294967295 (words_left self.old.rest) ≡ told (words_left self.new.rest) result }
    {
        number_up_to(u32::MAX, self.word()?)
    }

    /// The next word, a number of 8 bits.
    pub(crate) fn arity(&mut self) -> Option<u8>
        ensures { first_number 255 (words_left self.old.rest) ≡ told (words_left self.new.rest) result }
    {
        let number = number_up_to(255, self.word()?)?;
        Some(number as u8)
    }

    /// The next word, a number of 32 bits or `-` for none.
    pub(crate) fn maybe(&mut self) -> Option<Option<u32>>
        ensures { first_maybe (words_left self.old.rest) ≡ told (words_left self.new.rest) result }
    {
        let word = self.word()?;
        if word == b"-".as_slice() {
            return Some(None);
        }
        let number = number_up_to(u32::MAX, word)?;
        Some(Some(number))
    }

    /// The next seven words, the counts of a link.
    pub(crate) fn counts(&mut self) -> Option<Counts>
        ensures { first_counts (words_left self.old.rest) ≡ told (words_left self.new.rest) result }
    {
        let calls = self.number()?;
        let exits = self.number()?;
        let fails = self.number()?;
        let redos = self.number()?;
        let allocs = self.number()?;
        let words = self.number()?;
        let excps = self.number()?;
        Some(Counts {
            calls,
            exits,
            fails,
            redos,
            allocs,
            words,
            excps,
        })
    }

    /// The next word, which is this one.
    pub(crate) fn exactly(&mut self, name: &[u8]) -> Option<()>
        ensures { behind name.now (words_left self.old.rest) ≡ option_map (λ u. words_left self.new.rest) result }
    {
        let word = self.word()?;
        if word == name { Some(()) } else { None }
    }

    /// Nothing, behind the last word.
    pub(crate) fn end(&self) -> Option<()>
        ensures { MatchOption result (words_left self.now.rest ≡ [] → ⊥) (λ u. words_left self.now.rest ≡ []) }
    {
        match self.rest {
            Some(_) => None,
            None => Some(()),
        }
    }
}
