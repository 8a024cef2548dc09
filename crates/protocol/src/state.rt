// What a host keeps of a slot: the state of a connection, a session, and a command that waits to be written.
use wire::SessionReply;

/// The state of a transport connection.
#[derive(Clone, Copy, PartialEq, Eq, Debug)]
pub enum State {
    /// Nothing is to be said on it: a next is refused with 6.
    Idle,
    /// 82 (create_T_C) is to be written.
    CreateDue,
    /// 82 was written, and the module's 83 (C_T_C_Reply) is to come in.
    Creating,
    /// Sessions may be open on it, and a next always has something to write.
    Active,
    /// 84 (delete_T_C) is to be written.
    DeleteDue,
    /// 84 was written, and the module's 85 (D_T_C_Reply) is to come in.
    Deleting,
    /// The module sent 84, and 85 is to be written, with which no turn is handed out.
    ReplyDue,
}

/// An open session, found by its number.
#[derive(Clone, Copy, PartialEq, Eq, Debug)]
pub struct SessionRow {
    /// The connection that it is open on, 1 or 2.
    pub connection: u8,
    /// The listed identifier of its resource.
    pub identifier: u32,
    /// Whether its greeting is still to be written.
    pub greeting_due: bool,
}

/// A command that an Active connection owes, which is written before all else.
/// `B` is how the object of a session unit is held.
#[derive(Clone, Copy)]
pub enum OwedCommand<B> {
    /// 87 (new_T_C) with the other connection, which becomes Create due when this is written.
    NewConnection,
    /// 88 (T_C_Error) with error code 1: there is no other connection to be had.
    NoConnection,
    /// A session unit, in one A0 (T_data_last).
    SessionUnit(SessionReply<B>),
}
