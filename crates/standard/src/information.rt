// Application Information (00020041): keeps what a slot's module last told of itself.
ghost use Rattle.std.specs.Prelude.{◌≡◌, ◌≤◌, true, length};
ghost use Rattle.std.specs.Option.{option_map};
ghost use Rattle.resource.specs.CallEffects.{New};
ghost use Rattle.standard.specs.StandardRules.{is_information};
ghost use Rattle.standard.specs.InformationHandling.{information_handling, information_meaning, latest_information};

use crate::answer::WRONG_LENGTH;
use crate::single::{Handler, SingleResource};
use arrayvec::ArrayVec;
use resource::{ApduBuf, RefusalByte, SessionNumber, SlotNumber};
use wire::Apdu;
use wire::apdu::APPLICATION_INFO;

/// The handler of Application Information, which notes for each slot the body of the latest application info.
#[derive(Drop)]
pub struct Information {
    latest: [Option<ArrayVec<u8, 261>>; 4],
}

// Six bytes, the sixth of which tells how many follow.
fn is_whole(body: &[u8]) -> bool
    ensures test { result ≡ is_information body.now }
    ensures within { result ≡ true → length body.now ≤ 261 }
{
    body.len() >= 6 && body.len() == 6 + body[5] as usize
}

impl Information {
    /// A new Application Information.
    pub fn resource() -> SingleResource<Information>
        ensures { New information_meaning result }
    {
        SingleResource::new(Information {
            latest: [None, None, None, None],
        })
    }

    /// The body of the latest application info of a slot's module; none before any, once the module is gone, and above slot 3.
    pub fn latest(&self, slot: u8) -> Option<&[u8]>
        ensures { option_map (λ x. x.now) result ≡ latest_information self.now slot }
    {
        self.latest
            .get(slot as usize)?
            .as_ref()
            .map(|body| body.as_slice())
    }
}

impl Handler for Information {
    ghost handling = { information_handling };

    fn identifier(&self) -> u32 {
        0x00020041
    }

    fn greeting(&self) -> Option<ApduBuf> {
        ApduBuf::new(&[0x9F, 0x80, 0x20, 0])
    }

    // What is kept outlasts a session.
    fn begin(&mut self, slot: SlotNumber, number: SessionNumber) {}

    fn react(
        &mut self,
        time: Option<[u8; 5]>,
        slot: SlotNumber,
        number: SessionNumber,
        apdu: Apdu<&[u8]>,
    ) -> Result<Option<ApduBuf>, RefusalByte> {
        if apdu.tag != APPLICATION_INFO {
            return Ok(None);
        }
        if !is_whole(apdu.body) {
            return Err(WRONG_LENGTH);
        }
        self.latest[slot.get() as usize] = ArrayVec::try_from(apdu.body).ok();
        Ok(None)
    }

    fn forget(&mut self, slot: SlotNumber) {
        self.latest[slot.get() as usize] = None;
    }
}
