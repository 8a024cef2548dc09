// Resource Manager (00010041): tells a module which resources there are.
ghost use Rattle.std.specs.Prelude.{◌≡◌, ◌≤◌, ◌++◌, take};
ghost use Rattle.arrayvec.specs.ArrayVec.{array_vec_len};
ghost use Rattle.resource.specs.CallEffects.{New};
ghost use Rattle.standard.specs.ManagerHandling.{manager_handling, manager_meaning, profile_object};

use crate::answer::{WRONG_LENGTH, reply};
use crate::session_set::SessionSet;
use crate::single::{Handler, SingleResource};
use arrayvec::ArrayVec;
use resource::{ApduBuf, RefusalByte, SessionNumber, SlotNumber};
use wire::Apdu;
use wire::apdu::{PROFILE_CHANGED, PROFILE_ENQUIRY, PROFILE_REPLY};

// The first sixteen of them.
fn first_sixteen(all: &[u32]) -> ArrayVec<u32, 16>
    ensures { result.items ≡ take 16 all.now }
{
    ArrayVec::try_from(&all[..all.len().min(16)]).unwrap_or_default()
}

// Four bytes more at the end.
fn push_four(bytes: &mut ArrayVec<u8, 68>, more: [u8; 4])
    requires { array_vec_len bytes.old ≤ 64 }
    ensures { bytes.new.items ≡ bytes.old.items ++ more }
{
    for byte in more {
        bytes.push(byte);
    }
}

// The object that announces identifiers.
#[tactic(auto, using(crate::proofs::ProfileBytes::be_bytes_are_four, crate::proofs::ProfileBytes::begun_length, crate::proofs::ProfileBytes::begun_more))]
fn profile(identifiers: &ArrayVec<u32, 16>) -> ArrayVec<u8, 68>
    ensures { result.items ≡ profile_object (take 16 identifiers.now.items) }
{
    let mut bytes = ArrayVec::new();
    push_four(&mut bytes, [0x9F, 0x80, 0x11, identifiers.len() as u8 * 4]);
    for identifier in identifiers.as_slice() {
        push_four(&mut bytes, identifier.to_be_bytes());
    }
    bytes
}

/// The handler of Resource Manager: the identifiers that it announces, and which sessions of each slot sent a profile.
#[derive(Drop)]
pub struct Manager {
    own: ArrayVec<u32, 16>,
    profiles: [SessionSet; 4],
}

impl Manager {
    /// A new Resource Manager, which announces the first sixteen of these identifiers (all, if fewer).
    pub fn resource(identifiers: &[u32]) -> SingleResource<Manager>
        ensures made { manager_meaning.made result ≡ take 16 identifiers.now }
        ensures begins { New manager_meaning result }
    {
        SingleResource::new(Manager {
            own: first_sixteen(identifiers),
            profiles: [SessionSet::empty(); 4],
        })
    }
}

impl Handler for Manager {
    ghost handling = { manager_handling };

    fn identifier(&self) -> u32 {
        0x00010041
    }

    fn greeting(&self) -> Option<ApduBuf> {
        ApduBuf::new(&[0x9F, 0x80, 0x10, 0])
    }

    fn begin(&mut self, slot: SlotNumber, number: SessionNumber) {
        self.profiles[slot.get() as usize].remove(number);
    }

    #[tactic(auto, using(crate::proofs::ProfileBytes::announced))]
    fn react(
        &mut self,
        time: Option<[u8; 5]>,
        slot: SlotNumber,
        number: SessionNumber,
        apdu: Apdu<&[u8]>,
    ) -> Result<Option<ApduBuf>, RefusalByte> {
        let length = apdu.body.len();
        match apdu.tag {
            PROFILE_ENQUIRY if length == 0 => reply(profile(&self.own).as_slice()),
            PROFILE_REPLY if length % 4 == 0 => {
                let set = &mut self.profiles[slot.get() as usize];
                let before = set.contains(number.get());
                set.insert(number);
                if before {
                    Ok(None)
                } else {
                    reply(&[0x9F, 0x80, 0x12, 0])
                }
            }
            PROFILE_CHANGED if length == 0 => reply(&[0x9F, 0x80, 0x10, 0]),
            PROFILE_ENQUIRY | PROFILE_REPLY | PROFILE_CHANGED => Err(WRONG_LENGTH),
            _ => Ok(None),
        }
    }

    fn forget(&mut self, slot: SlotNumber) {
        self.profiles[slot.get() as usize] = SessionSet::empty();
    }
}
