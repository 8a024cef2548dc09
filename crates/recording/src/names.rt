// Names of units, statuses, resources and objects, and numbers in hexadecimal digits.
ghost use Rattle.std.specs.Prelude.{◌≡◌};
ghost use Rattle.std.specs.Option.{option_map};
ghost use Rattle.recording.specs.UnitNames.{name_of_tpdu, name_of_spdu, name_of_open_status, name_of_close_status, name_of_resource, name_of_apdu, hexadecimal_digit, byte_digits, word_digits};

use wire::{apdu, spdu, tpdu};

// Names by number; each answers for every number that the wire may carry.

/// The name of a TPDU's object by its tag, or `unknown`.
pub fn tpdu_name(tag: u8) -> &'static str
    ensures { result.now ≡ name_of_tpdu tag }
{
    match tag {
        tpdu::SB => "T_SB",
        tpdu::RCV => "T_RCV",
        tpdu::CREATE_T_C => "create_T_C",
        tpdu::C_T_C_REPLY => "C_T_C_Reply",
        tpdu::DELETE_T_C => "delete_T_C",
        tpdu::D_T_C_REPLY => "D_T_C_Reply",
        tpdu::REQUEST_T_C => "request_T_C",
        tpdu::NEW_T_C => "new_T_C",
        tpdu::T_C_ERROR => "T_C_Error",
        tpdu::T_DATA_LAST => "T_data_last",
        tpdu::T_DATA_MORE => "T_data_more",
        _ => "unknown",
    }
}

/// The name of an SPDU by its tag, or `unknown`.
pub fn spdu_name(tag: u8) -> &'static str
    ensures { result.now ≡ name_of_spdu tag }
{
    match tag {
        spdu::SESSION_NUMBER => "session_number",
        spdu::OPEN_SESSION_REQUEST => "open_session_request",
        spdu::OPEN_SESSION_RESPONSE => "open_session_response",
        spdu::CLOSE_SESSION_REQUEST => "close_session_request",
        spdu::CLOSE_SESSION_RESPONSE => "close_session_response",
        _ => "unknown",
    }
}

/// The meaning of an open_session_response's status, if it has one.
pub fn open_status_name(status: u8) -> Option<&'static str>
    ensures { option_map (λ x. x.now) result ≡ name_of_open_status status }
{
    match status {
        0x00 => Some("ok"),
        0xF0 => Some("no such resource"),
        0xF1 => Some("resource unavailable"),
        0xF2 => Some("lower version"),
        0xF3 => Some("busy"),
        _ => None,
    }
}

/// The meaning of a close_session_response's status, if it has one.
pub fn close_status_name(status: u8) -> Option<&'static str>
    ensures { option_map (λ x. x.now) result ≡ name_of_close_status status }
{
    match status {
        0x00 => Some("ok"),
        0xF0 => Some("session not open"),
        _ => None,
    }
}

/// The name of a resource by its identifier in any version (the low 6 bits do not count), if it has one.
pub fn resource_name(identifier: u32) -> Option<&'static str>
    ensures { option_map (λ x. x.now) result ≡ name_of_resource identifier }
{
    match identifier / 64 {
        0x401 => Some("Resource Manager"),
        0x801 => Some("Application Information"),
        0xC01 => Some("Conditional Access Support"),
        0x8001 => Some("Host Control"),
        0x9001 => Some("Date-Time"),
        0x10001 => Some("MMI"),
        _ => None,
    }
}

/// The name of an application object by its tag, if it has one.
pub fn apdu_name(tag: u32) -> Option<&'static str>
    ensures { option_map (λ x. x.now) result ≡ name_of_apdu tag }
{
    match tag {
        apdu::PROFILE_ENQUIRY => Some("profile enquiry"),
        apdu::PROFILE_REPLY => Some("profile reply"),
        apdu::PROFILE_CHANGED => Some("profile changed"),
        apdu::APPLICATION_INFO_ENQUIRY => Some("application info enquiry"),
        apdu::APPLICATION_INFO => Some("application info"),
        apdu::ENTER_MENU => Some("enter menu"),
        apdu::CA_INFO_ENQUIRY => Some("CA info enquiry"),
        apdu::CA_INFO => Some("CA info"),
        apdu::CA_PMT => Some("CA PMT"),
        apdu::CA_PMT_REPLY => Some("CA PMT reply"),
        apdu::DATE_TIME_ENQUIRY => Some("date-time enquiry"),
        apdu::DATE_TIME => Some("date-time"),
        _ => None,
    }
}

// The last hexadecimal digit of a number.
fn digit(n: u32) -> char
    ensures { result ≡ hexadecimal_digit n }
{
    let low = (n % 16) as u8;
    if low < 10 {
        (b'0' + low) as char
    } else {
        (b'A' + (low - 10)) as char
    }
}

/// A byte in two hexadecimal digits, in capitals, the high one first.
pub fn hex(byte: u8) -> [char; 2]
    ensures { result ≡ byte_digits byte }
{
    let n = byte as u32;
    [digit(n / 16), digit(n)]
}

/// A number in eight hexadecimal digits, in capitals, the highest first.
pub fn hex_word(n: u32) -> [char; 8]
    ensures { result ≡ word_digits n }
{
    [
        digit(n / 0x10000000),
        digit(n / 0x1000000),
        digit(n / 0x100000),
        digit(n / 0x10000),
        digit(n / 0x1000),
        digit(n / 0x100),
        digit(n / 0x10),
        digit(n),
    ]
}
