// The player.
ghost use Rattle.std.specs.Prelude.{◌≡◌, ℕ, ◌<◌, [], ◌∷◌, map, length};
ghost use Rattle.resource.specs.CallEffects.{New};
ghost use Rattle.protocol.specs.Runs.{run};
ghost use Rattle.protocol.specs.HostLaws.{ReachedBy};
ghost use Rattle.host.specs.HostRefinement.{IsNewHost, host_state};
ghost use Rattle.host.specs.Calls.{lent};
ghost use Rattle.host.specs.PlayerRefinement.{call_of, TurnsMatch, PlayerRefinesCall};
ghost use Rattle.host.specs.PlayedLists.{call_in, entries_after, new_host_over, EntriesApart, PlayerRefinesCalls};

use crate::call::{Answer, Call, CallAndAnswer};
use crate::state::PlayerState;
use crate::turn::host::Host;
use crate::turns::TurnTable;
use protocol::Refusal;
use resource::Resource;

/// A player: a host, and just the turns that are out. It cannot be let go: `finish` ends it.
pub struct Player<R> {
    state: PlayerState<R>,
    ghost tied: { TurnsMatch state },
}

impl<R: Resource + Drop> Player<R> {
    /// The turns still out expire, and the host is let go.
    pub fn finish(self) {
        let Player { state } = self;
        state.finish();
    }
}

impl<R: Resource> Player<R> {
    /// A player of a new host over a resource, with no turn out.
    pub fn new(resource: R) -> Player<R>
        ensures { IsNewHost R.Resource.meaning resource result.state.host }
    {
        let state = PlayerState {
            host: Host::new(resource),
            held: TurnTable::empty(),
        };
        Player { state }
    }

    /// Makes a call; `out` is the buffer of a next, which no other call changes. Answers and refusals are those of the host,
    /// but a feed or an expire for which no turn is held is refused with 1, 2 or 5, the first that applies.
    pub fn call(&mut self, call: Call<&[u8]>, out: &mut [u8]) -> Result<Answer, Refusal>
        ensures { PlayerRefinesCall R.Resource.meaning (call_of (lent call.entry) (length out.old)) result out.old out.new self.old.state.host self.new.state.host }
    {
        self.state.call(call, out)
    }

    /// Plays a list of calls on a new host over a resource. Each entry is left with its answer and,
    /// of a next, with what was written.
    pub fn play(resource: R, entries: &mut [CallAndAnswer<'_>]) -> Player<R>
        ensures answers { entries.new ≡ entries_after R.Resource.meaning (R.Resource.meaning.made resource) entries.old (new_host_over R.Resource.meaning resource) }
        ensures apart { EntriesApart R.Resource.meaning resource entries.old entries.new }
        ensures after { (s : ℕ) → s < 4 → host_state R.Resource.meaning result.state.host s ≡ run R.Resource.meaning (R.Resource.meaning.made resource) (map call_in entries.old) (new_host_over R.Resource.meaning resource) s }
        ensures made { R.Resource.meaning.made result.state.host.resource ≡ R.Resource.meaning.made resource }
        ensures reached_by { New R.Resource.meaning resource → ReachedBy R.Resource.meaning (R.Resource.meaning.made resource) (map call_in entries.old) (host_state R.Resource.meaning result.state.host) }
    {
        let mut player = Player::new(resource);
        player.play_on(entries);
        player
    }

    // Plays a list of calls.
    #[tactic(auto, using(crate::proofs::ListsGrow::played_to_none, crate::proofs::ListsGrow::played_to_all))]
    fn play_on(&mut self, entries: &mut [CallAndAnswer<'_>])
        ensures { PlayerRefinesCalls R.Resource.meaning entries.old entries.new self.old.state.host self.new.state.host }
    {
        for entry in entries.iter_mut() {
            self.play_one(entry);
        }
    }

    fn play_one(&mut self, entry: &mut CallAndAnswer<'_>)
        ensures { PlayerRefinesCalls R.Resource.meaning (entry.old ∷ []) (entry.new ∷ []) self.old.state.host self.new.state.host }
    {
        entry.answer = Some(self.call(entry.call, &mut entry.out));
    }

    /// The host, to be read.
    pub fn host(&self) -> &Host<R>
        ensures { result.now ≡ self.now.state.host }
    {
        &self.state.host
    }
}
