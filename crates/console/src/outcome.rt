// How the answer to a call prints.
ghost use Rattle.std.specs.Prelude.{Some};
ghost use Rattle.console.specs.PrintedAnswers.{answer_text};

use host::Answer;
use protocol::{Refusal, write_byte};
use std::fmt;

/// The answer to a call, with the out buffer of a next. It prints as `ok`, `more`, `sent` and the bytes written, or
/// `refused`, the number and what the refusal carries.
#[derive(Clone, Copy)]
pub struct PrintedAnswer<'a> {
    pub answer: Result<Answer, Refusal>,
    /// The buffer of a next: as many of its bytes are printed as were written.
    pub out: &'a [u8],
}

impl fmt::Display for PrintedAnswer<'_> {
    ghost output = { λ x. Some (answer_text x.answer x.out.now) };

    fn fmt<W: fmt::Write>(&self, f: &mut fmt::Formatter<W>) -> fmt::Result {
        match self.answer {
            Ok(Answer::Done) => f.write_str("ok"),
            Ok(Answer::More) => f.write_str("more"),
            Ok(Answer::Sent(length, _)) => {
                f.write_str("sent")?;
                for byte in self.out.iter().take(length) {
                    write_byte(f, *byte)?;
                }
                Ok(())
            }
            Err(refusal) => write!(f, "{refusal}"),
        }
    }
}
