// The words of a line, and what each is read as.
ghost use Rattle.std.specs.Prelude.{◌≡◌, ◌∷◌, [], true, MatchOption, MatchResult, OnOk};
ghost use Rattle.std.specs.Char.{is_ascii_digit};
ghost use Rattle.std.specs.List.{list_all};
ghost use Rattle.text.specs.Errors.{MeantOrNoMemory};
ghost use Rattle.console.specs.LineWords.{result_map, words, read_first, first_room, decimal_number, small_number as small_number_of, byte as byte_of, slot_and_connection as slot_and_connection_of, bytes as bytes_of, ended};
ghost use Rattle.console.specs.declared.request.LineFault.TheVariants.{MissingWord};

use crate::request::LineFault;
use std::alloc::Global;
use std::str;
use text::{LineError, byte, read_bytes, split_word};

// The size of the out buffer of a next that tells none.
const ROOM: u16 = 152;

// Whether a word has decimal digits alone, and no sign.
fn has_digits(word: &[u8]) -> bool
    ensures { result ≡ list_all is_ascii_digit word.now }
{
    word.iter().all(|c| c.is_ascii_digit())
}

// A number in decimal digits.
#[tactic(auto, using(crate::proofs::DecimalWords::text, crate::proofs::DecimalWords::decimal))]
fn number(word: &[u8]) -> Result<u16, LineFault>
    ensures { result ≡ decimal_number word.now }
{
    if !has_digits(word) {
        return Err(LineFault::NotDecimal);
    }
    match str::from_utf8(word) {
        Ok(text) => text.parse().map_err(|_| LineFault::TooLarge),
        Err(_) => Err(LineFault::NotDecimal),
    }
}

// A number of a slot or a connection.
fn small_number(word: &[u8]) -> Result<u8, LineFault>
    ensures { result ≡ small_number_of word.now }
{
    u8::try_from(number(word)?).map_err(|_| LineFault::TooLarge)
}

// The words of a line that are still to be read, with blanks between them.
#[derive(Drop)]
pub(crate) struct Words<'a> {
    pub(crate) left: &'a [u8],
}

impl<'a> Words<'a> {
    pub(crate) fn pop(&mut self) -> Option<&'a [u8]>
        ensures { MatchOption result ((words self.old.left.now ≡ []) × (words self.new.left.now ≡ [])) (λ w. words self.old.left.now ≡ w.now ∷ words self.new.left.now) }
    {
        let (word, left) = split_word(self.left)?;
        self.left = left;
        Some(word)
    }

    fn word(&mut self) -> Result<&'a [u8], LineFault>
        ensures { MatchResult result (λ w. words self.old.left.now ≡ w.now ∷ words self.new.left.now) (λ why. (why ≡ MissingWord) × (words self.old.left.now ≡ [])) }
    {
        self.pop().ok_or(LineFault::MissingWord)
    }

    // A size.
    pub(crate) fn number(&mut self) -> Result<u16, LineFault>
        ensures { result_map (λ n. (n, words self.new.left.now)) result ≡ read_first decimal_number (words self.old.left.now) }
    {
        number(self.word()?)
    }

    // A slot or a connection.
    pub(crate) fn small_number(&mut self) -> Result<u8, LineFault>
        ensures { result_map (λ n. (n, words self.new.left.now)) result ≡ read_first small_number_of (words self.old.left.now) }
    {
        small_number(self.word()?)
    }

    pub(crate) fn byte(&mut self) -> Result<u8, LineFault>
        ensures { result_map (λ b. (b, words self.new.left.now)) result ≡ read_first byte_of (words self.old.left.now) }
    {
        byte(self.word()?).ok_or(LineFault::NotHex)
    }

    pub(crate) fn slot_and_connection(&mut self) -> Result<(u8, u8), LineFault>
        ensures { result_map (λ p. (p, words self.new.left.now)) result ≡ slot_and_connection_of (words self.old.left.now) }
    {
        Ok((self.small_number()?, self.small_number()?))
    }

    // The size of the out buffer of a next.
    pub(crate) fn room(&mut self) -> Result<u16, LineFault>
        ensures { result_map (λ n. (n, words self.new.left.now)) result ≡ first_room (words self.old.left.now) }
    {
        match self.pop() {
            Some(word) => number(word),
            None => Ok(ROOM),
        }
    }

    // All that are left, as bytes.
    pub(crate) fn bytes(&mut self, heap: Global) -> Result<Vec<u8>, LineError<LineFault>>
        ensures bytes { MeantOrNoMemory true (bytes_of (words self.old.left.now)) (λ v. v.items) result }
        ensures left { OnOk result (words self.new.left.now ≡ []) }
    {
        let mut bytes = Vec::new(heap);
        read_bytes(self.left, &mut bytes, LineFault::NotHex)?;
        self.left = &[];
        Ok(bytes)
    }

    pub(crate) fn finish(&mut self) -> Result<(), LineFault>
        ensures { result ≡ ended (words self.old.left.now) }
    {
        match self.pop() {
            Some(_) => Err(LineFault::ExtraWord),
            None => Ok(()),
        }
    }
}
