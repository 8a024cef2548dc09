// Answers of a resource.
ghost use Rattle.std.specs.Prelude.{◌≡◌, Some, Ok};
ghost use Rattle.resource.specs.ShortApdu.{IsShortApdu};
ghost use Rattle.resource.specs.InterfaceViews.{reaction_of};

use resource::{ApduBuf, RefusalByte};

/// The refusal, 01, of an object whose length is another than its tag asks for.
pub const WRONG_LENGTH: RefusalByte = RefusalByte(1);

/// The answer that sends the object of these bytes.
pub fn reply(bytes: &[u8]) -> Result<Option<ApduBuf>, RefusalByte>
    requires { IsShortApdu bytes.now }
    ensures { reaction_of result ≡ Ok (Some bytes.now) }
{
    Ok(ApduBuf::new(bytes))
}
