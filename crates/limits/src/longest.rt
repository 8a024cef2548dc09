// A private resource (C0100001): an object of one tag is answered with one as long as a resource may send.
ghost use Rattle.resource.specs.CallEffects.{New};
ghost use Rattle.limits.specs.LongestHandling.{longest_handling, longest_meaning};

use resource::{ApduBuf, RefusalByte, SessionNumber, SlotNumber};
use standard::{Handler, SingleResource, reply};
use wire::Apdu;

const ENQUIRY: u32 = 0x9FFF00;

// 9FFF01 with the bytes from 0 to 119.
const REPLY: [u8; 124] = [
    0x9F, 0xFF, 0x01, 0x78, 0, 1, 2, 3, 4, 5, 6, 7, 8, 9, 10, 11, 12, 13, 14, 15, 16, 17, 18, 19,
    20, 21, 22, 23, 24, 25, 26, 27, 28, 29, 30, 31, 32, 33, 34, 35, 36, 37, 38, 39, 40, 41, 42, 43,
    44, 45, 46, 47, 48, 49, 50, 51, 52, 53, 54, 55, 56, 57, 58, 59, 60, 61, 62, 63, 64, 65, 66, 67,
    68, 69, 70, 71, 72, 73, 74, 75, 76, 77, 78, 79, 80, 81, 82, 83, 84, 85, 86, 87, 88, 89, 90, 91,
    92, 93, 94, 95, 96, 97, 98, 99, 100, 101, 102, 103, 104, 105, 106, 107, 108, 109, 110, 111,
    112, 113, 114, 115, 116, 117, 118, 119,
];

#[derive(Clone, Copy)]
pub struct LongestReply {}

impl LongestReply {
    // A new resource.
    pub fn resource() -> SingleResource<LongestReply>
        ensures { New longest_meaning result }
    {
        SingleResource::new(LongestReply {})
    }
}

impl Handler for LongestReply {
    ghost handling = { longest_handling };

    fn identifier(&self) -> u32 {
        0xC0100001
    }

    fn greeting(&self) -> Option<ApduBuf> {
        None
    }

    fn begin(&mut self, slot: SlotNumber, number: SessionNumber) {}

    // An enquiry of any length is answered.
    fn react(
        &mut self,
        time: Option<[u8; 5]>,
        slot: SlotNumber,
        number: SessionNumber,
        apdu: Apdu<&[u8]>,
    ) -> Result<Option<ApduBuf>, RefusalByte> {
        if apdu.tag != ENQUIRY {
            return Ok(None);
        }
        reply(&REPLY)
    }

    fn forget(&mut self, slot: SlotNumber) {}
}
