// Reading lines from an input, each cut to a limit.
ghost use Rattle.std.specs.Prelude.{◌≡◌, ◌<◌, ◌≤◌, true, false, [], length, take_while, if◌then◌else◌, None, Some, IfOk, OnOk, MatchResult, vec_items};
ghost use Rattle.std.specs.Io.Buffered.{reader_remaining};
ghost use Rattle.std.specs.Iterator.{at_most};
ghost use Rattle.text.specs.Lines.{limit as limit_of, left, count, in_line, with_bytes, Adds, Reads, Yields};

use std::alloc::Global;
use std::io;
use std::io::{BufRead, BufReader, ErrorKind, Read};

// How many bytes stand before the first line feed, or in all where there is none.
fn before_feed(bytes: &[u8]) -> usize
    ensures value { result ≡ length (take_while in_line bytes.now) }
    ensures bound { result ≤ length bytes.now }
{
    bytes.iter().take_while(|byte| **byte != b'\n').count()
}

// Adds bytes to a line, up to one more than the limit: so a line that is too long stays so, and no more of it is held.
fn add(line: &mut Vec<u8>, bytes: &[u8], limit: usize) -> io::Result<()>
    ensures { OnOk result (line.new.items ≡ with_bytes limit line.old.items bytes.now) }
{
    let room = limit.saturating_add(1).saturating_sub(line.len());
    let end = bytes.len().min(room);
    line.extend_from_slice(&bytes[..end])?;
    Ok(())
}

// How far a line has come: it goes on, its line feed was read, or the input has ended.
enum Piece {
    Part,
    Whole,
    End,
}

// Adds to a line what the reader has of it, and reads from the input only where the reader has nothing.
fn add_piece<R: Read>(
    input: &mut BufReader<R>,
    line: &mut Vec<u8>,
    limit: usize,
) -> io::Result<Piece>
    ensures { IfOk result (λ piece. Adds limit piece line.old.items line.new.items (reader_remaining R.remaining input.old) (reader_remaining R.remaining input.new)) }
{
    let bytes = match input.fill_buf() {
        Ok(bytes) => bytes,
        Err(e) => {
            // A read that a signal interrupted is made again.
            return if e.kind() == ErrorKind::Interrupted {
                Ok(Piece::Part)
            } else {
                Err(e)
            };
        }
    };
    if bytes.is_empty() {
        return Ok(Piece::End);
    }
    let end = before_feed(bytes);
    let is_whole = end < bytes.len();
    let added = add(line, &bytes[..end], limit);
    // What is read is passed over also where there is no memory for it, as the bytes of a line in which reading fails are.
    if is_whole {
        input.consume(end + 1);
        added?;
        Ok(Piece::Whole)
    } else {
        input.consume(end);
        added?;
        Ok(Piece::Part)
    }
}

/// The lines of an input, without their line feeds; the last one needs none. Of a line that is longer than the limit one byte more
/// than the limit is given, and the rest is passed over. After an error nothing is promised of what comes.
#[derive(Drop)]
pub struct Lines<R> {
    heap: Global,
    limit: usize,
    input: BufReader<R>,
    // How many more pieces may be taken, since nothing says that an input ends: none after its end, so that it is not read again.
    turns: u64,
    // The input has ended.
    ended: bool,
}

impl<R: Read + Drop> Lines<R> {
    /// The lines of an input, with a limit in bytes.
    pub fn new(heap: Global, input: R, limit: usize) -> io::Result<Lines<R>>
        ensures limit { IfOk result (λ lines. limit_of lines ≡ limit) }
        ensures left { IfOk result (λ lines. left R.remaining lines ≡ R.remaining input) }
    {
        Ok(Lines {
            heap,
            limit,
            input: BufReader::new(heap, input)?,
            turns: u64::MAX,
            ended: false,
        })
    }

    /// Puts the next line in place of what `line` had, and tells whether there was one; at the end of the input `line` is
    /// empty. One vector for all lines asks for memory only where a line is longer than those before it.
    pub fn read_into(&mut self, line: &mut Vec<u8>) -> io::Result<bool>
        ensures read { IfOk result (λ more. Reads vec_items (limit_of self.old) (left R.remaining self.old) (if more then Some line.new else None) (left R.remaining self.new)) }
        ensures none { IfOk result (λ more. more ≡ false → line.new.items ≡ []) }
        ensures limit { limit_of self.new ≡ limit_of self.old }
        ensures fewer { MatchResult result (λ more. more ≡ true → count self.new < count self.old) (λ _. count self.new < count self.old) }
    {
        line.clear();
        while self.turns > 0 {
            self.turns -= 1;
            if self.turns == 0 {
                return Err(ErrorKind::TimedOut.into());
            }
            match add_piece(&mut self.input, line, self.limit)? {
                Piece::Part => {}
                Piece::Whole => return Ok(true),
                Piece::End => {
                    self.ended = true;
                    self.turns = 0;
                }
            }
        }
        Ok(!line.is_empty())
    }
}

impl<R: Read + Drop> Iterator for Lines<R> {
    type Item = io::Result<Vec<u8>>;

    ghost next_gives = { λ s r t. Yields vec_items (limit_of s) (left R.remaining s) r (left R.remaining t) × (limit_of t ≡ limit_of s) };

    ghost remaining = { λ s. at_most (count s) };

    fn next(&mut self) -> Option<io::Result<Vec<u8>>> {
        let mut line = Vec::new(self.heap);
        match self.read_into(&mut line) {
            Ok(true) => Some(Ok(line)),
            Ok(false) => None,
            Err(e) => Some(Err(e)),
        }
    }
}
