// Recordings: lines of text that show the LPDUs that went between a host and a module.
ghost use Rattle.std.specs.Prelude.{◌≡◌, [], Some};
ghost use Rattle.std.specs.Option.{option_map};
ghost use Rattle.text.specs.Errors.{memory_ran_out};
ghost use Rattle.text.specs.Words.{words};
ghost use Rattle.recording.specs.LineNames.{direction_name, bad_line_text};
ghost use Rattle.recording.specs.LineReading.{all_blank, words_after, slot_number, lpdu_line, word_line, given, answer_and_bytes};

use std::fmt;
use text::{LineError, is_blank, read_bytes, split_word};

/// Who sent an LPDU. It prints as `host` or `module`.
#[derive(Clone, Copy, PartialEq, Eq, Debug)]
pub enum Direction {
    FromHost,
    FromModule,
}

impl fmt::Display for Direction {
    ghost output = { λ d. Some (direction_name d) };

    fn fmt<W: fmt::Write>(&self, f: &mut fmt::Formatter<W>) -> fmt::Result {
        f.write_str(match self {
            Direction::FromHost => "host",
            Direction::FromModule => "module",
        })
    }
}

/// Why a line is none of a recording. It prints as what is wrong.
#[derive(Clone, Copy, PartialEq, Eq, Debug)]
pub enum BadLine {
    Long,
    Word,
    Slot,
    Hex,
}

impl fmt::Display for BadLine {
    ghost output = { λ r. Some (bad_line_text r) };

    fn fmt<W: fmt::Write>(&self, f: &mut fmt::Formatter<W>) -> fmt::Result {
        f.write_str(match self {
            BadLine::Long => "longer than 8192 bytes",
            BadLine::Word => "begins with none of >, <, slot and #",
            BadLine::Slot => "the slot is not a digit from 0 to 3",
            BadLine::Hex => "bytes are two hexadecimal digits each, with blanks between them",
        })
    }
}

/// What a line says: nothing, the slot of the lines after it, or who sent an LPDU.
#[derive(Clone, Copy, PartialEq, Eq, Debug)]
pub enum RecordingLine {
    Blank,
    Slot(u8),
    Lpdu(Direction),
}

/// The longest line that is read, in bytes.
pub const LONGEST_LINE: usize = 8192;

fn only_blanks(text: &[u8]) -> bool
    ensures { result ≡ all_blank text.now }
{
    text.iter().all(|c| is_blank(*c))
}

// What follows a line's first word, where a blank stands between or nothing follows.
fn apart(text: &[u8]) -> Option<&[u8]>
    ensures { option_map (λ rest. words rest.now) result ≡ words_after text.now }
{
    match text {
        [c, rest @ ..] if is_blank(*c) => Some(rest),
        [_, ..] => None,
        [] => Some(text),
    }
}

// The number of a slot.
fn read_slot(text: &[u8]) -> Option<u8>
    ensures { result ≡ slot_number text.now }
{
    let (word, left) = split_word(apart(text)?)?;
    match word {
        [n @ b'0'..=b'3'] if split_word(left).is_none() => Some(*n - b'0'),
        _ => None,
    }
}

fn read_lpdu(
    direction: Direction,
    text: &[u8],
    bytes: &mut Vec<u8>,
) -> Result<RecordingLine, LineError<BadLine>>
    requires { bytes.old.items ≡ [] }
    ensures { given (memory_ran_out result) (lpdu_line direction text.now) ≡ (result, bytes.new.items) }
{
    let text = apart(text).ok_or(LineError::Bad(BadLine::Hex))?;
    read_bytes(text, bytes, BadLine::Hex)?;
    Ok(RecordingLine::Lpdu(direction))
}

fn read_by_word(line: &[u8], bytes: &mut Vec<u8>) -> Result<RecordingLine, LineError<BadLine>>
    requires { bytes.old.items ≡ [] }
    ensures { given (memory_ran_out result) (word_line line.now) ≡ (result, bytes.new.items) }
{
    match line {
        [b'#', ..] => Ok(RecordingLine::Blank),
        [b'>', rest @ ..] => read_lpdu(Direction::FromHost, rest, bytes),
        [b'<', rest @ ..] => read_lpdu(Direction::FromModule, rest, bytes),
        [b's', b'l', b'o', b't', rest @ ..] => read_slot(rest)
            .map(RecordingLine::Slot)
            .ok_or(LineError::Bad(BadLine::Slot)),
        _ => Err(LineError::Bad(BadLine::Word)),
    }
}

/// What a line says; it is given without a line feed or carriage return at its end. The bytes of an LPDU are put into `bytes`,
/// which is left empty where there is none. Refused with what is wrong, or with `Memory` where memory runs out.
pub fn parse_line(line: &[u8], bytes: &mut Vec<u8>) -> Result<RecordingLine, LineError<BadLine>>
    ensures { answer_and_bytes (memory_ran_out result) line.now ≡ (result, bytes.new.items) }
{
    bytes.clear();
    if line.len() > LONGEST_LINE {
        Err(LineError::Bad(BadLine::Long))
    } else if only_blanks(line) {
        Ok(RecordingLine::Blank)
    } else {
        read_by_word(line, bytes)
    }
}
