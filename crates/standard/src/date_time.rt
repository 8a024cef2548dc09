// Date-Time (00240041): tells a module the time on request.
ghost use Rattle.resource.specs.CallEffects.{New};
ghost use Rattle.standard.specs.DateTimeHandling.{date_time_handling, date_time_meaning};

use crate::answer::{WRONG_LENGTH, reply};
use crate::single::{Handler, SingleResource};
use resource::{ApduBuf, RefusalByte, SessionNumber, SlotNumber};
use wire::Apdu;
use wire::apdu::DATE_TIME_ENQUIRY;

/// The handler of Date-Time, which notes nothing.
#[derive(Clone, Copy)]
pub struct DateTime {}

impl DateTime {
    /// A new Date-Time.
    pub fn resource() -> SingleResource<DateTime>
        ensures { New date_time_meaning result }
    {
        SingleResource::new(DateTime {})
    }
}

impl Handler for DateTime {
    ghost handling = { date_time_handling };

    fn identifier(&self) -> u32 {
        0x00240041
    }

    fn greeting(&self) -> Option<ApduBuf> {
        None
    }

    fn begin(&mut self, slot: SlotNumber, number: SessionNumber) {}

    // An enquiry is answered with the time last told, and before any time with nothing.
    fn react(
        &mut self,
        time: Option<[u8; 5]>,
        slot: SlotNumber,
        number: SessionNumber,
        apdu: Apdu<&[u8]>,
    ) -> Result<Option<ApduBuf>, RefusalByte> {
        if apdu.tag != DATE_TIME_ENQUIRY {
            return Ok(None);
        }
        if apdu.body.len() != 1 {
            return Err(WRONG_LENGTH);
        }
        let Some(t) = time else {
            return Ok(None);
        };
        reply(&[0x9F, 0x84, 0x41, 5, t[0], t[1], t[2], t[3], t[4]])
    }

    fn forget(&mut self, slot: SlotNumber) {}
}
