// What is wrong with a unit, layer by layer.
ghost use Rattle.std.specs.Prelude.{◌≡◌, Some};
ghost use Rattle.wire.specs.declared.fault.Fault.TheVariants.{Length};
ghost use Rattle.wire.specs.declared.fault.LinkFault.TheVariants.{Short};
ghost use Rattle.wire.specs.FaultNames.{fault_name, link_fault_name};

use std::fmt;

/// The first thing at fault in a TPDU, an SPDU or an APDU, reading forward. It prints as its name in small letters.
#[derive(Clone, Copy, PartialEq, Eq, Debug)]
pub enum Fault {
    /// A tag that cannot stand there.
    Tag,
    /// A length that is malformed or not allowed, or bytes that are missing or over.
    Length,
    /// Another connection than the one read for.
    Content,
}

impl Fault {
    /// Its name in small letters.
    pub fn name(self) -> &'static str
        ensures { result.now ≡ fault_name self }
    {
        match self {
            Fault::Tag => "tag",
            Fault::Length => "length",
            Fault::Content => "content",
        }
    }
}

impl fmt::Display for Fault {
    ghost output = { λ f. Some (fault_name f) };

    fn fmt<W: fmt::Write>(&self, f: &mut fmt::Formatter<W>) -> fmt::Result {
        f.write_str(self.name())
    }
}

/// A length field that is malformed or not allowed, or bytes that are missing or over.
#[derive(Clone, Copy)]
pub struct LengthFault;

/// What is wrong with an LPDU: the first of these that applies. It prints as its name in small letters.
#[derive(Clone, Copy, PartialEq, Eq, Debug)]
pub enum LinkFault {
    /// Fewer than 3 bytes.
    Short,
    /// More bytes than the agreed size, header included.
    Long,
    /// The first byte is not the connection expected.
    Connection,
    /// The second byte is neither `00` nor `80`.
    Mark,
}

impl LinkFault {
    /// Its name in small letters.
    pub fn name(self) -> &'static str
        ensures { result.now ≡ link_fault_name self }
    {
        match self {
            LinkFault::Short => "short",
            LinkFault::Long => "long",
            LinkFault::Connection => "connection",
            LinkFault::Mark => "mark",
        }
    }
}

impl fmt::Display for LinkFault {
    ghost output = { λ f. Some (link_fault_name f) };

    fn fmt<W: fmt::Write>(&self, f: &mut fmt::Formatter<W>) -> fmt::Result {
        f.write_str(self.name())
    }
}

/// The fault of a TPDU, which `?` lifts into the refusal of its layer.
#[derive(Clone, Copy, PartialEq, Eq, Debug)]
pub struct TransportFault(pub Fault);

/// The fault of an SPDU, which `?` lifts into the refusal of its layer.
#[derive(Clone, Copy, PartialEq, Eq, Debug)]
pub struct SessionFault(pub Fault);

/// The fault of an APDU, which `?` lifts into the refusal of its layer.
#[derive(Clone, Copy, PartialEq, Eq, Debug)]
pub struct ApplicationFault(pub Fault);

impl From<LengthFault> for LinkFault {
    ghost from_gives = { λ _ r. r ≡ Short };

    fn from(_e: LengthFault) -> LinkFault {
        LinkFault::Short
    }
}

impl From<LengthFault> for TransportFault {
    ghost from_gives = { λ _ r. r.0 ≡ Length };

    fn from(_e: LengthFault) -> TransportFault {
        TransportFault(Fault::Length)
    }
}

impl From<LengthFault> for SessionFault {
    ghost from_gives = { λ _ r. r.0 ≡ Length };

    fn from(_e: LengthFault) -> SessionFault {
        SessionFault(Fault::Length)
    }
}

impl From<LengthFault> for ApplicationFault {
    ghost from_gives = { λ _ r. r.0 ≡ Length };

    fn from(_e: LengthFault) -> ApplicationFault {
        ApplicationFault(Fault::Length)
    }
}
