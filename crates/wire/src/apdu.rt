// Application objects (APDUs).
ghost use Rattle.std.specs.Prelude.{◌≡◌};
ghost use Rattle.wire.specs.Reading.{start};
ghost use Rattle.wire.specs.ApduReading.{tag as tag_of, object as object_of};
ghost use Rattle.wire.specs.CursorViews.{position_of};
ghost use Rattle.wire.specs.ApduViews.{application_result, application_object};

use crate::cursor::{Cursor, FieldLength, Part};
use crate::fault::{ApplicationFault, Fault};

/// The first byte of every tag of an application object.
pub const FIRST_TAG_BYTE: u8 = 0x9F;

/// Tags of the objects of the public resources, the three bytes as one number.
pub const PROFILE_ENQUIRY: u32 = 0x9F8010;

pub const PROFILE_REPLY: u32 = 0x9F8011;

pub const PROFILE_CHANGED: u32 = 0x9F8012;

pub const APPLICATION_INFO_ENQUIRY: u32 = 0x9F8020;

pub const APPLICATION_INFO: u32 = 0x9F8021;

pub const ENTER_MENU: u32 = 0x9F8022;

pub const CA_INFO_ENQUIRY: u32 = 0x9F8030;

pub const CA_INFO: u32 = 0x9F8031;

pub const CA_PMT: u32 = 0x9F8032;

pub const CA_PMT_REPLY: u32 = 0x9F8033;

pub const DATE_TIME_ENQUIRY: u32 = 0x9F8440;

pub const DATE_TIME: u32 = 0x9F8441;

/// An application object: its tag, the three bytes as one number, and its body. `B` is how the body is held.
#[derive(Clone, Copy)]
pub struct Apdu<B> {
    pub tag: u32,
    pub body: B,
}

/// Reads one APDU.
#[derive(Clone, Copy)]
pub struct ApduReader<'a> {
    cursor: Cursor<'a>,
}

impl<'a> ApduReader<'a> {
    /// A reader of the bytes of one APDU.
    pub fn new(bytes: &'a [u8]) -> ApduReader<'a>
        ensures { position_of result.cursor ≡ start bytes.now }
    {
        ApduReader {
            cursor: Cursor::new(bytes),
        }
    }

    fn tag(&mut self) -> Result<u32, ApplicationFault>
        ensures { tag_of (position_of self.old.cursor) ≡ (application_result result, position_of self.new.cursor) }
    {
        let left = self.cursor.left;
        match left {
            [FIRST_TAG_BYTE, b, c, rest @ ..] if *b >= 0x80 && *c < 0x80 => {
                self.cursor.left = rest;
                Ok(u32::from_be_bytes([0, FIRST_TAG_BYTE, *b, *c]))
            }
            [] | [FIRST_TAG_BYTE] => Err(ApplicationFault(Fault::Length)),
            [FIRST_TAG_BYTE, b] if *b >= 0x80 => Err(ApplicationFault(Fault::Length)),
            _ => Err(ApplicationFault(Fault::Tag)),
        }
    }

    /// The application object: three bytes of tag, a length and exactly that many bytes; the body is a part of the bytes given.
    /// Refused with the first fault met: `Tag` where the three are not `9F`, a byte with its top bit set and one with it clear,
    /// and `Length` where bytes are missing or over or the length is malformed.
    pub fn object(mut self) -> Result<Apdu<Part<'a>>, ApplicationFault>
        ensures { application_object result ≡ (object_of (position_of self.entry.cursor)).0 }
    {
        let tag = self.tag()?;
        let body = self.cursor.field(FieldLength::AtLeast(0))?;
        self.cursor.finish()?;
        Ok(Apdu {
            tag,
            body: body.rest(),
        })
    }
}
