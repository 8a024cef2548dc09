// Prints what an LPDU, a TPDU, an SPDU and an APDU say, one line each.
use crate::{Route, SPDU_LIMIT};
use recording::{Direction, JoinError, PartialUnit, names};
use std::alloc::AllocError;
use std::{fmt, io};
use wire::{
    ApduReader, Command, Fragment, LinkFault, Part, Response, ResponseObject, SessionReply,
    SessionRequest, SpduReader, TpduReader, spdu, tpdu,
};

// Hexadecimal digits, one after the other.
#[derive(Clone, Copy)]
struct Digits<'a>(&'a [char]);

impl fmt::Display for Digits<'_> {
    fn fmt<W: fmt::Write>(&self, f: &mut fmt::Formatter<W>) -> fmt::Result {
        for digit in self.0 {
            f.write_char(*digit)?;
        }
        Ok(())
    }
}

// How many bytes.
#[derive(Clone, Copy)]
struct ByteCount(usize);

impl fmt::Display for ByteCount {
    fn fmt<W: fmt::Write>(&self, f: &mut fmt::Formatter<W>) -> fmt::Result {
        match self.0 {
            1 => f.write_str("1 byte"),
            n => write!(f, "{n} bytes"),
        }
    }
}

// A status by its meaning, or the byte where it has none.
#[derive(Clone, Copy)]
struct Status {
    meaning: Option<&'static str>,
    code: u8,
}

impl fmt::Display for Status {
    fn fmt<W: fmt::Write>(&self, f: &mut fmt::Formatter<W>) -> fmt::Result {
        match self.meaning {
            Some(meaning) => f.write_str(meaning),
            None => write!(f, "status {}", Digits(&names::hex(self.code))),
        }
    }
}

// An identifier, and the resource's name where it has one.
#[derive(Clone, Copy)]
struct Identifier(u32);

impl fmt::Display for Identifier {
    fn fmt<W: fmt::Write>(&self, f: &mut fmt::Formatter<W>) -> fmt::Result {
        write!(f, "{}", Digits(&names::hex_word(self.0)))?;
        match names::resource_name(self.0) {
            Some(name) => write!(f, " {name}"),
            None => Ok(()),
        }
    }
}

// An LPDU, or what is wrong with it.
pub(crate) fn link(
    rt: &HostRuntime,
    way: Route,
    length: usize,
    read: Result<Fragment<Part<'_>>, LinkFault>,
) -> io::Result<()> {
    print!(rt; "slot {}, {}", way.slot, way.sender)?;
    match read {
        Ok(fragment) => {
            let mark = if fragment.more { "more" } else { "last" };
            let size = ByteCount(fragment.bytes.bytes.len());
            println!(rt; ", connection {}, {mark}, {size}", way.connection)
        }
        Err(fault) => println!(rt; ", {}\n  link: {}", ByteCount(length), fault.name()),
    }
}

// A unit that is dropped; an error where there was no memory for it.
pub(crate) fn show_dropped(
    rt: &HostRuntime,
    refusal: JoinError,
    unit: &str,
    limit: usize,
) -> io::Result<()> {
    match refusal {
        JoinError::Limit => println!(rt; "  {unit} dropped: longer than {limit} bytes"),
        JoinError::Memory => Err(io::Error::from(AllocError)),
    }
}

// A TPDU. Data of the module with more to follow are chained.
pub(crate) fn tpdu(
    rt: &HostRuntime,
    way: Route,
    tpdu: &[u8],
    chain: &mut PartialUnit,
) -> io::Result<()> {
    let reader = TpduReader::new(tpdu);
    let fault = match way.sender {
        Direction::FromHost => match reader.command(way.connection) {
            Ok(command) => return show_command(rt, command),
            Err(fault) => fault,
        },
        Direction::FromModule => match reader.response(way.connection) {
            Ok(response) => return show_response(rt, response, chain),
            Err(fault) => fault,
        },
    };
    println!(rt; "  transport: {}", fault.0.name())
}

// The tag of what the host sends.
fn command_tag(command: &Command<Part<'_>>) -> u8 {
    match command {
        Command::Create => tpdu::CREATE_T_C,
        Command::Delete => tpdu::DELETE_T_C,
        Command::DeleteReply => tpdu::D_T_C_REPLY,
        Command::Receive => tpdu::RCV,
        Command::NewConnection(_) => tpdu::NEW_T_C,
        Command::Error(_) => tpdu::T_C_ERROR,
        Command::Data(_) => tpdu::T_DATA_LAST,
    }
}

fn show_command(rt: &HostRuntime, command: Command<Part<'_>>) -> io::Result<()> {
    print!(rt; "  {}", names::tpdu_name(command_tag(&command)))?;
    match command {
        Command::Create | Command::Delete | Command::DeleteReply | Command::Receive => {
            println!(rt; "")
        }
        Command::NewConnection(new) => println!(rt; ", connection {new}"),
        Command::Error(code) => println!(rt; ", code {}", Digits(&names::hex(code))),
        Command::Data(data) => show_host_data(rt, data.bytes),
    }
}

// Data of the host.
fn show_host_data(rt: &HostRuntime, data: &[u8]) -> io::Result<()> {
    if data.is_empty() {
        return println!(rt; ", empty (a poll)");
    }
    println!(rt; ", {}", ByteCount(data.len()))?;
    reply(rt, data)
}

// The tag of what the module sends.
fn object_tag(object: &ResponseObject<Part<'_>>) -> u8 {
    match object {
        ResponseObject::Nothing => tpdu::SB,
        ResponseObject::CreateReply => tpdu::C_T_C_REPLY,
        ResponseObject::Delete => tpdu::DELETE_T_C,
        ResponseObject::DeleteReply => tpdu::D_T_C_REPLY,
        ResponseObject::RequestConnection => tpdu::REQUEST_T_C,
        ResponseObject::DataMore(_) => tpdu::T_DATA_MORE,
        ResponseObject::DataLast(_) => tpdu::T_DATA_LAST,
    }
}

fn show_response(
    rt: &HostRuntime,
    response: Response<Part<'_>>,
    chain: &mut PartialUnit,
) -> io::Result<()> {
    print!(rt; "  {}", names::tpdu_name(object_tag(&response.object)))?;
    if let ResponseObject::DataMore(data) | ResponseObject::DataLast(data) = response.object {
        match data.bytes.len() {
            0 => print!(rt; ", empty")?,
            n => print!(rt; ", {}", ByteCount(n))?,
        }
    }
    println!(rt; ", DA {}", response.available as u8)?;
    match response.object {
        ResponseObject::Nothing
        | ResponseObject::Delete
        | ResponseObject::DeleteReply
        | ResponseObject::RequestConnection => Ok(()),
        ResponseObject::CreateReply => {
            chain.clear();
            Ok(())
        }
        ResponseObject::DataMore(data) => more(rt, data.bytes, chain),
        ResponseObject::DataLast(data) => last(rt, data.bytes, chain),
    }
}

// Data of the module with more to follow.
fn more(rt: &HostRuntime, data: &[u8], chain: &mut PartialUnit) -> io::Result<()> {
    chain
        .add(data)
        .or_else(|refusal| show_dropped(rt, refusal, "SPDU", SPDU_LIMIT))
}

// Data of the module that end an SPDU, unless there are none of it.
fn last(rt: &HostRuntime, data: &[u8], chain: &mut PartialUnit) -> io::Result<()> {
    let told = match chain.add(data) {
        Ok(()) if chain.bytes().is_empty() => Ok(()),
        Ok(()) => request(rt, chain.bytes()),
        Err(refusal) => show_dropped(rt, refusal, "SPDU", SPDU_LIMIT),
    };
    chain.clear();
    told
}

// An SPDU of the module.
fn request(rt: &HostRuntime, spdu: &[u8]) -> io::Result<()> {
    match SpduReader::new(spdu).request() {
        Ok(SessionRequest::Open(identifier)) => println!(rt;
            "    {}, {}",
            names::spdu_name(spdu::OPEN_SESSION_REQUEST),
            Identifier(identifier)
        ),
        Ok(SessionRequest::Close(number)) => println!(rt;
            "    {}, session {number}",
            names::spdu_name(spdu::CLOSE_SESSION_REQUEST)
        ),
        Ok(SessionRequest::Data(number, body)) => show_session_data(rt, number, body.bytes),
        Err(fault) => println!(rt; "    session: {}", fault.0.name()),
    }
}

// An SPDU of the host.
fn reply(rt: &HostRuntime, spdu: &[u8]) -> io::Result<()> {
    match SpduReader::new(spdu).reply() {
        Ok(SessionReply::OpenResponse(code, identifier, number)) => println!(rt;
            "    {}, {}, session {number}, {}",
            names::spdu_name(spdu::OPEN_SESSION_RESPONSE),
            Status {
                meaning: names::open_status_name(code),
                code
            },
            Identifier(identifier)
        ),
        Ok(SessionReply::CloseResponse(code, number)) => println!(rt;
            "    {}, {}, session {number}",
            names::spdu_name(spdu::CLOSE_SESSION_RESPONSE),
            Status {
                meaning: names::close_status_name(code),
                code
            }
        ),
        Ok(SessionReply::Data(number, body)) => show_session_data(rt, number, body.bytes),
        Err(fault) => println!(rt; "    session: {}", fault.0.name()),
    }
}

// An APDU in a session.
fn show_session_data(rt: &HostRuntime, number: u16, body: &[u8]) -> io::Result<()> {
    println!(rt;
        "    {}, session {number}",
        names::spdu_name(spdu::SESSION_NUMBER)
    )?;
    let object = match ApduReader::new(body).object() {
        Ok(object) => object,
        Err(fault) => return println!(rt; "      object: {}", fault.0.name()),
    };
    match names::apdu_name(object.tag) {
        Some(name) => print!(rt; "      {name}")?,
        None => print!(rt; "      tag {}", Digits(&names::hex_word(object.tag)[2..]))?,
    }
    contents(rt, object.body.bytes)
}

// How many bytes, and the first of them.
fn contents(rt: &HostRuntime, bytes: &[u8]) -> io::Result<()> {
    print!(rt; ", {}", ByteCount(bytes.len()))?;
    if !bytes.is_empty() {
        print!(rt; ":")?;
    }
    for byte in bytes.iter().take(8) {
        print!(rt; " {}", Digits(&names::hex(*byte)))?;
    }
    if bytes.len() > 8 {
        print!(rt; " ..")?;
    }
    println!(rt; "")
}
