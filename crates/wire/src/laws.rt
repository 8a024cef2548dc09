// The laws of the units on the wire: what is written reads back, in the shortest form, and no reader reads past its bytes.
// Each function has nothing to do; its contract is a law, which the check then asks a proof of.
ghost use Rattle.wire.specs.UnitLaws.{LengthsReadBack, LengthsShortest, CommandsReadBack, RepliesReadBack, LpdusReadBack, BodiesLieWithin, WorkedLengths};

/// A written length reads back, whatever follows it.
#[tactic(auto, using(crate::proofs::ReadingBackLemmas::lengths_back))]
pub fn lengths_read_back()
    ensures { LengthsReadBack }
{}

/// No bytes that read as a length are fewer than those that are written for it.
pub fn lengths_are_shortest()
    ensures { LengthsShortest }
{}

/// A written command reads back on its connection, where two bytes can tell its length.
#[tactic(auto, using(crate::proofs::ReadingBackLemmas::commands_back))]
pub fn commands_read_back()
    ensures { CommandsReadBack }
{}

/// A host's written SPDU reads back.
pub fn replies_read_back()
    ensures { RepliesReadBack }
{}

/// The LPDUs of a TPDU that is not empty join to it again, where the agreed size is at least 3.
#[tactic(auto, using(crate::proofs::ReadingBackLemmas::lpdus_back))]
pub fn lpdus_read_back()
    ensures { LpdusReadBack }
{}

/// Whatever bytes a reader is given, the body that it hands out is the part of them at the offset that it tells.
#[tactic(auto, using(crate::proofs::BodiesWithin::lies_within))]
pub fn bodies_lie_within()
    ensures { BodiesLieWithin }
{}

/// Worked lengths: `7F` reads as 127 and `81 80` as 128; `80` and `83 00 00 05` are malformed; 128 is written `81 80`.
#[tactic(auto, using(crate::proofs::WorkedLengths::worked))]
pub fn worked_lengths()
    ensures { WorkedLengths }
{}
