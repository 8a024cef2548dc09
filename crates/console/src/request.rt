// The calls of a console: what a line asks for, or what is wrong with it.
ghost use Rattle.std.specs.Prelude.{◌≡◌, ◌&&◌, Some};
ghost use Rattle.std.specs.Option.{option_map};
ghost use Rattle.std.specs.Str.Lines.{strip_carriage_return};
ghost use Rattle.host.specs.Calls.{owned};
ghost use Rattle.console.specs.PrintedCalls.{fault_text};
ghost use Rattle.console.specs.CallLines.{parse_answer, asked, clock as clock_of, plug as plug_of, feed as feed_of, by_name, room as room_of, request as request_of, is_feed, names_connection};
ghost use Rattle.console.specs.LineWords.{result_map, words as words_of};
ghost use Rattle.text.specs.Errors.{MeantOrNoMemory, memory_ran_out};
ghost use Rattle.text.specs.declared.error.LineError.TheVariants.{Bad};

use crate::arguments::Words;
use host::Call;
use std::alloc::Global;
use std::{fmt, str};
use text::LineError;

/// The longest line that is read, in bytes; a carriage return at its end counts.
/// A feed of an LPDU of 65,535 bytes is shorter.
pub const LONGEST: usize = 200000;

/// What a line asks for: a call, with the size of the out buffer of a next.
#[derive(Drop)]
pub struct Request {
    pub call: Call<Vec<u8>>,
    /// The size of the out buffer of a next, in bytes: 152 where the line tells none, and 0 for any other call.
    pub room: u16,
}

/// Why a line is no call: the first of the faults that is met, read forward. It prints as what is wrong with the line.
#[derive(Clone, Copy)]
pub enum LineFault {
    /// The line is longer than `LONGEST`, whatever it says.
    TooLong,
    /// The first word is no call's name.
    NoSuchCall,
    /// The line ends before the call is whole.
    MissingWord,
    /// A number has a character that is no decimal digit.
    NotDecimal,
    /// A slot or a connection is above 255, or a size or a room above 65,535.
    TooLarge,
    /// A byte is another thing than two hexadecimal digits.
    NotHex,
    /// A word follows the whole call.
    ExtraWord,
}

impl fmt::Display for LineFault {
    ghost output = { λ r. Some (fault_text r) };

    fn fmt<W: fmt::Write>(&self, f: &mut fmt::Formatter<W>) -> fmt::Result {
        f.write_str(match self {
            LineFault::TooLong => "longer than 200000 bytes",
            LineFault::NoSuchCall => "no such call; --help lists them",
            LineFault::MissingWord => "a word is missing; --help shows the form",
            LineFault::NotDecimal => "a number is written in decimal digits",
            LineFault::TooLarge => {
                "a number is too large: slots and connections end at 255, sizes and rooms at 65535"
            }
            LineFault::NotHex => "a byte is written as two hexadecimal digits",
            LineFault::ExtraWord => "more words than the call takes; --help shows the form",
        })
    }
}

impl From<LineFault> for LineError<LineFault> {
    ghost from_gives = { λ why e. e ≡ Bad why };

    fn from(why: LineFault) -> LineError<LineFault> {
        LineError::Bad(why)
    }
}

fn clock(words: &mut Words) -> Result<Call<Vec<u8>>, LineFault>
    ensures { result_map (λ c. (owned c, words_of words.new.left.now)) result ≡ clock_of (words_of words.old.left.now) }
{
    let time = [
        words.byte()?,
        words.byte()?,
        words.byte()?,
        words.byte()?,
        words.byte()?,
    ];
    Ok(Call::Clock { time })
}

fn plug(words: &mut Words) -> Result<Call<Vec<u8>>, LineFault>
    ensures { result_map (λ c. (owned c, words_of words.new.left.now)) result ≡ plug_of (words_of words.old.left.now) }
{
    let slot = words.small_number()?;
    let size = words.number()?;
    Ok(Call::Plug { slot, size })
}

fn feed(words: &mut Words, heap: Global) -> Result<Call<Vec<u8>>, LineError<LineFault>>
    ensures { MeantOrNoMemory (names_connection (words_of words.old.left.now)) (feed_of (words_of words.old.left.now)) (λ c. (owned c, words_of words.new.left.now)) result }
{
    let (slot, connection) = words.slot_and_connection()?;
    let lpdu = words.bytes(heap)?;
    Ok(Call::Feed {
        slot,
        connection,
        lpdu,
    })
}

// The call of this name, as the words after it tell it.
fn call(name: &str, words: &mut Words, heap: Global) -> Result<Call<Vec<u8>>, LineError<LineFault>>
    ensures { MeantOrNoMemory (is_feed name.now && names_connection (words_of words.old.left.now)) (by_name name.now (words_of words.old.left.now)) (λ c. (owned c, words_of words.new.left.now)) result }
{
    match name {
        "clock" => Ok(clock(words)?),
        "plug" => Ok(plug(words)?),
        "pull" => {
            let slot = words.small_number()?;
            Ok(Call::Pull { slot })
        }
        "end" => {
            let (slot, connection) = words.slot_and_connection()?;
            Ok(Call::End { slot, connection })
        }
        "next" => {
            let (slot, connection) = words.slot_and_connection()?;
            Ok(Call::Next { slot, connection })
        }
        "feed" => feed(words, heap),
        "expire" => {
            let (slot, connection) = words.slot_and_connection()?;
            Ok(Call::Expire { slot, connection })
        }
        _ => Err(LineError::Bad(LineFault::NoSuchCall)),
    }
}

// The room that a next's words may still tell.
fn room(call: &Call<Vec<u8>>, words: &mut Words) -> Result<u16, LineFault>
    ensures { result_map (λ n. (n, words_of words.new.left.now)) result ≡ room_of (owned call.now) (words_of words.old.left.now) }
{
    match call {
        Call::Next { .. } => words.room(),
        _ => Ok(0),
    }
}

// What a name and the words after it ask for.
#[tactic(auto, using(crate::proofs::NamesLemmas::no_name))]
fn read(name: &[u8], mut words: Words, heap: Global) -> Result<Request, LineError<LineFault>>
    ensures { MeantOrNoMemory (is_feed name.now && names_connection (words_of words.entry.left.now)) (request_of name.now (words_of words.entry.left.now)) asked result }
{
    let Ok(name) = str::from_utf8(name) else {
        return Err(LineError::Bad(LineFault::NoSuchCall));
    };
    let call = call(name, &mut words, heap)?;
    let room = room(&call, &mut words)?;
    words.finish()?;
    Ok(Request { call, room })
}

// The line without the carriage return at its end.
fn without_return(line: &[u8]) -> &[u8]
    ensures { result.now ≡ strip_carriage_return line.now }
{
    match line {
        [text @ .., b'\r'] => text,
        _ => line,
    }
}

/// What a line asks for, or what is wrong with it; nothing for blanks alone and for a first word that begins with #.
/// A carriage return at its end is dropped. The bytes of a feed are put on the heap: `LineError::Memory` where it is full.
pub fn parse(line: &[u8], heap: Global) -> Result<Option<Request>, LineError<LineFault>>
    ensures { result_map (option_map asked) result ≡ parse_answer (memory_ran_out result) line.now }
{
    if line.len() > LONGEST {
        return Err(LineError::Bad(LineFault::TooLong));
    }
    let mut words = Words {
        left: without_return(line),
    };
    let Some(name) = words.pop() else {
        return Ok(None);
    };
    if let [b'#', ..] = name {
        return Ok(None);
    }
    Ok(Some(read(name, words, heap)?))
}
