// The laws of the calls, over every resource. Each function has nothing to do; its contract is a law, which the check then asks a proof of.
ghost use Rattle.std.specs.Prelude.{◌≡◌};
ghost use Rattle.protocol.specs.Limits.{command_limit};
ghost use Rattle.protocol.specs.HostLaws.{RecordsSound, SessionsAgree, SlotsApart, AbsentAsNew, SpareTakesOver, RoomSuffices, ReachedByNoCalls, ReachedByOneMore};
ghost use Rattle.protocol.specs.TurnMarks.{TurnsFollow};

use resource::Resource;

/// Room for every command, in bytes: no command has more in its LPDUs, whatever the agreed size.
pub const COMMAND_LIMIT: usize = 152;

/// Law: after every list of calls to a new host each slot's record is sound, as `Sound` in `specs/Sound.antt` has it:
/// among others, each session is on an Active connection, and nothing is owed where the turn is out.
pub fn records_sound<R: Resource>()
    ensures { (made : R.Resource.meaning.Made) → RecordsSound R.Resource.meaning made }
{}

/// Law: after every list of calls to a new host a slot's sessions are those of the ledger, which is kept from the calls alone;
/// the resource holds and counts exactly these; presence, turns and which connections are Active agree too.
pub fn sessions_agree<R: Resource>()
    ensures { (made : R.Resource.meaning.Made) → SessionsAgree R.Resource.meaning made }
{}

/// Law: two lists of calls to new hosts, with the same clock calls and the same calls of a slot in the same order,
/// give this slot the same answers and leave the same record and share of the resource.
pub fn slots_apart<R: Resource>()
    ensures { (made : R.Resource.meaning.Made) → SlotsApart R.Resource.meaning made }
{}

/// Law: whether a connection's turn is out follows from the calls and their answers. A next may hand it out, a feed may
/// spend it, an expire takes it, and nothing else changes it.
pub fn turns_follow_the_calls<R: Resource>()
    ensures { (made : R.Resource.meaning.Made) → TurnsFollow R.Resource.meaning made }
{}

/// Law: an absent slot with no turn out is, in record and share, as in a new host to which the last served clock call
/// alone was made.
pub fn absent_as_new<R: Resource>()
    ensures { (made : R.Resource.meaning.Made) → AbsentAsNew R.Resource.meaning made }
{}

/// Law: where a slot is absent with no turn out in two hosts over the same resources that were told the same time last,
/// the same clock calls and the same calls of this slot get the same answers from both, and leave the same record and share.
pub fn spare_takes_over<R: Resource>()
    ensures { (made : R.Resource.meaning.Made) → SpareTakesOver R.Resource.meaning made }
{}

/// Law: a new host is reached by no calls, and what is reached by a list of calls is, after one call more, reached by the
/// list with this call. `ReachedBy` in `specs/HostLaws.antt` has all that follows for a host that is reached by a list.
pub fn reached_by_calls<R: Resource>()
    ensures new { (made : R.Resource.meaning.Made) → ReachedByNoCalls R.Resource.meaning made }
    ensures on { (made : R.Resource.meaning.Made) → ReachedByOneMore R.Resource.meaning made }
{}

/// Law: `COMMAND_LIMIT` bytes are room for every command, and no command is longer.
pub fn room_suffices<R: Resource>()
    ensures suffices { (made : R.Resource.meaning.Made) → RoomSuffices R.Resource.meaning made }
    ensures constant { COMMAND_LIMIT ≡ command_limit }
{}
