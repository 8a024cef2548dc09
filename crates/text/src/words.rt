// The words of a line, with blanks between them, and bytes that words write in hexadecimal digits.
ghost use Rattle.std.specs.Prelude.{◌≡◌, ◌<◌, ◌∷◌, ◌++◌, [], true, not, length, take_while, MatchOption, IfSome};
ghost use Rattle.std.specs.Option.{ok_or, option_map};
ghost use Rattle.text.specs.Errors.{MeantOrNoMemory, memory_ran_out};
ghost use Rattle.text.specs.Words.{is_blank, words, digit as digit_of, byte as byte_of, bytes as bytes_of, filled};

use crate::error::LineError;

/// Whether a character is a space or a tab.
pub fn is_blank(c: u8) -> bool
    ensures { result ≡ is_blank c }
{
    matches!(c, b' ' | b'\t')
}

// How many blanks a text begins with.
fn blanks(text: &[u8]) -> usize
    ensures { result ≡ length (take_while is_blank text.now) }
{
    text.iter().take_while(|c| is_blank(**c)).count()
}

// How many other characters it begins with.
fn letters(text: &[u8]) -> usize
    ensures { result ≡ length (take_while (λ c. not (is_blank c)) text.now) }
{
    text.iter().take_while(|c| !is_blank(**c)).count()
}

/// The first word of a text, and a part of the text that has the words after it; none where it has no word.
pub fn split_word(text: &[u8]) -> Option<(&[u8], &[u8])>
    ensures { MatchOption result (words text.now ≡ []) (λ parts. words text.now ≡ parts.0.now ∷ words parts.1.now) }
{
    let (_, begun) = text.split_at(blanks(text));
    let (word, left) = begun.split_at(letters(begun));
    if word.is_empty() {
        None
    } else {
        Some((word, left))
    }
}

fn digit(c: u8) -> Option<u8>
    ensures value { result ≡ digit_of c }
    ensures bound { IfSome result (λ d. d < 16) }
{
    (c as char).to_digit(16).map(|d| d as u8)
}

/// The byte that a word of two hexadecimal digits in either case writes; none of any other word.
pub fn byte(word: &[u8]) -> Option<u8>
    ensures { result ≡ byte_of word.now }
{
    match word {
        [high, low] => Some(digit(*high)? * 16 + digit(*low)?),
        _ => None,
    }
}

// Adds the bytes of all words, up to one that writes none.
fn add_bytes<R: Copy>(mut text: &[u8], bytes: &mut Vec<u8>, reason: R) -> Result<(), LineError<R>>
    ensures { MeantOrNoMemory true (ok_or (option_map (λ bs. bytes.old.items ++ bs) (bytes_of (words text.entry.now))) reason) (λ _. bytes.new.items) result }
{
    while let Some((word, rest)) = split_word(text) {
        bytes.push(byte(word).ok_or(LineError::Bad(reason))?)?;
        text = rest;
    }
    Ok(())
}

/// Puts the bytes that all words of a text write, two hexadecimal digits each, in place of what `bytes` had.
/// Refused with `reason` where a word writes none, and with `Memory` where memory runs out; `bytes` is empty then.
pub fn read_bytes<R: Copy>(text: &[u8], bytes: &mut Vec<u8>, reason: R) -> Result<(), LineError<R>>
    ensures { filled (memory_ran_out result) reason (words text.now) ≡ (result, bytes.new.items) }
{
    bytes.clear();
    let read = add_bytes(text, bytes, reason);
    if read.is_err() {
        bytes.clear();
    }
    read
}
