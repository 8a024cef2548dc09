// Sets of session numbers.
ghost use Rattle.std.specs.Prelude.{◌≡◌, ◌≤◌, true, false};
ghost use Rattle.resource.specs.NumberTables.{put, tally, session_numbers};
ghost use Rattle.standard.specs.SetContents.{contains_number};

use resource::SessionNumber;

// A set of session numbers: a flag for each of the sixteen.
#[derive(Clone, Copy)]
pub struct SessionSet {
    flags: [bool; 16],
}

impl SessionSet {
    #[tactic(auto, using(crate::proofs::SessionSetLemmas::contains_in_empty))]
    pub fn empty() -> SessionSet
        ensures { contains_number result ≡ (λ _. false) }
    {
        SessionSet { flags: [false; 16] }
    }

    // Whether the set has this number; it has none outside 1 to 16.
    #[tactic(auto, using(crate::proofs::SessionSetLemmas::contains_at, crate::proofs::SessionSetLemmas::contains_outside))]
    pub fn contains(self, number: u8) -> bool
        ensures { result ≡ contains_number self number }
    {
        if number < 1 || number > 16 {
            return false;
        }
        self.flags[number as usize - 1]
    }

    #[tactic(auto, using(crate::proofs::SessionSetLemmas::contains_after_set))]
    pub fn insert(&mut self, number: SessionNumber)
        ensures { contains_number self.new ≡ put number.number true (contains_number self.old) }
    {
        self.flags[number.get() as usize - 1] = true;
    }

    #[tactic(auto, using(crate::proofs::SessionSetLemmas::contains_after_set))]
    pub fn remove(&mut self, number: SessionNumber)
        ensures { contains_number self.new ≡ put number.number false (contains_number self.old) }
    {
        self.flags[number.get() as usize - 1] = false;
    }

    #[tactic(auto, using(crate::proofs::SessionSetLemmas::sum_is_tally))]
    pub fn len(self) -> usize
        ensures count { result ≡ tally (contains_number self) session_numbers }
        ensures within { result ≤ 16 }
    {
        let mut total = 0;
        for mark in self.flags {
            total += usize::from(mark);
        }
        total
    }
}
