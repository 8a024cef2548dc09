// Conversations of a host with modules, over the three named resources as one.
#[cfg(test)]
mod tests {
    use host::{Answer, Call, CallAndAnswer, ConnectionStatus, Player};
    use protocol::{Refusal, SessionRow, State};
    use resource::Resource;
    use standard::{RESOURCE_MANAGER, STANDARD_IDENTIFIERS, standard_resources};
    use std::alloc::{AllocError, Global};
    use std::process::Abort;
    use std::test::Fail;

    // What a module says on connection 1.
    const CREATED: &[u8] = &[1, 0, 0x83, 1, 1, 0x80, 2, 1, 0];

    const STATUS: &[u8] = &[1, 0, 0x80, 2, 1, 0];

    const ASKS: &[u8] = &[1, 0, 0x86, 1, 1, 0x80, 2, 1, 0];

    const OPEN: &[u8] = &[1, 0, 0xA0, 7, 1, 0x91, 4, 0, 1, 0, 0x41, 0x80, 2, 1, 0];

    const CLOSE: &[u8] = &[1, 0, 0xA0, 5, 1, 0x95, 2, 0, 1, 0x80, 2, 1, 0];

    // What it is sent there.
    const CREATE: &[u8] = &[1, 0, 0x82, 1, 1];

    const POLL: &[u8] = &[1, 0, 0xA0, 1, 1];

    const OPENED: &[u8] = &[1, 0, 0xA0, 10, 1, 0x92, 7, 0, 0, 1, 0, 0x41, 0, 1];

    const GREETING: &[u8] = &[1, 0, 0xA0, 9, 1, 0x90, 2, 0, 1, 0x9F, 0x80, 0x10, 0];

    // What came of a call; of a next, the bytes and whether it handed out a turn.
    #[derive(Clone, Copy, PartialEq, Eq)]
    enum Said<'a> {
        Nothing,
        Done,
        More,
        Sent(&'a [u8], bool),
        Refused(Refusal),
    }

    fn outcome<'a>(answer: Option<Result<Answer, Refusal>>, out: &'a [u8]) -> Said<'a> {
        match answer {
            None => Said::Nothing,
            Some(Ok(Answer::Done)) => Said::Done,
            Some(Ok(Answer::More)) => Said::More,
            Some(Ok(Answer::Sent(length, turn))) => {
                Said::Sent(out.get(..length).unwrap_or_default(), turn)
            }
            Some(Err(refusal)) => Said::Refused(refusal),
        }
    }

    // A call as a table has it: its name, and what it takes in the order of a console's line.
    macro_rules! call {
        (clock $time:expr) => {
            Call::Clock { time: $time }
        };
        (plug $slot:expr, $size:expr) => {
            Call::Plug {
                slot: $slot,
                size: $size,
            }
        };
        (pull $slot:expr) => {
            Call::Pull { slot: $slot }
        };
        (end $slot:expr, $connection:expr) => {
            Call::End {
                slot: $slot,
                connection: $connection,
            }
        };
        (next $slot:expr, $connection:expr) => {
            Call::Next {
                slot: $slot,
                connection: $connection,
            }
        };
        (feed $slot:expr, $connection:expr, $lpdu:expr) => {
            Call::Feed {
                slot: $slot,
                connection: $connection,
                lpdu: $lpdu,
            }
        };
        (expire $slot:expr, $connection:expr) => {
            Call::Expire {
                slot: $slot,
                connection: $connection,
            }
        };
    }

    // A call, and what comes of it.
    type Step<'a> = (Call<&'a [u8]>, Said<'a>);

    // What is looked at after the steps: a slot's size, a connection's state and whether its turn is out, a session, or one more next, with what its buffer of 0xEEs then holds.
    #[derive(Clone, Copy)]
    enum Look<'a> {
        Size(u8, Option<u16>),
        Connection(u8, u8, Option<(State, bool)>),
        Session(u8, u16, Option<SessionRow>),
        Next(u8, u8, Said<'a>, &'a [u8]),
    }

    const UNWRITTEN: [u8; 152] = [0xEE; 152];

    fn entry<'a>(call: Call<&'a [u8]>) -> CallAndAnswer<'a> {
        CallAndAnswer {
            call,
            out: UNWRITTEN,
            answer: None,
        }
    }

    fn entries<'a>(
        alloc: Global,
        steps: &[Step<'a>],
    ) -> Result<Vec<CallAndAnswer<'a>>, AllocError> {
        let mut entries = Vec::new(alloc);
        for step in steps {
            entries.push(entry(step.0))?;
        }
        Ok(entries)
    }

    // Holds each answer against its step's.
    fn answers(rt: &impl Abort, entries: &[CallAndAnswer<'_>], steps: &[Step<'_>]) {
        for (i, (entry, step)) in entries.iter().zip(steps).enumerate() {
            assert!(rt; outcome(entry.answer, &entry.out) == step.1, "step {i}");
        }
    }

    // Whether the player shows so.
    fn shows<R: Resource>(player: &mut Player<R>, look: Look<'_>) -> bool {
        let host = player.host();
        match look {
            Look::Size(slot, size) => host.size(slot) == size,
            Look::Connection(slot, connection, expected) => {
                let line = host.connection(slot, connection);
                line.map(|ConnectionStatus { state, out }| (state, out)) == expected
            }
            Look::Session(slot, number, row) => host.session(slot, number) == row,
            Look::Next(slot, connection, said, left) => {
                let mut out = UNWRITTEN;
                let out = out.get_mut(..left.len()).unwrap_or_default();
                let answer = player.call(Call::Next { slot, connection }, out);
                outcome(Some(answer), out) == said && &*out == left
            }
        }
    }

    // Plays the steps on a new host over a resource, and holds each answer, and then each look, against its table.
    fn play_over<R: Resource + Drop>(
        rt: &impl Abort,
        alloc: Global,
        resource: R,
        steps: &[Step<'_>],
        looks: &[Look<'_>],
    ) -> Result<(), Fail> {
        let mut entries = entries(alloc, steps)?;
        let mut player = Player::play(resource, entries.as_mut_slice());
        answers(rt, entries.as_slice(), steps);
        for (i, look) in looks.iter().enumerate() {
            assert!(rt; shows(&mut player, *look), "look {i}");
        }
        player.finish();
        Ok(())
    }

    fn play(
        rt: &impl Abort,
        alloc: Global,
        steps: &[Step<'_>],
        looks: &[Look<'_>],
    ) -> Result<(), Fail> {
        play_over(
            rt,
            alloc,
            standard_resources(&STANDARD_IDENTIFIERS),
            steps,
            looks,
        )
    }

    const JUST_OPENED: Option<SessionRow> = Some(SessionRow {
        connection: 1,
        identifier: RESOURCE_MANAGER,
        greeting_due: true,
    });

    const WAITS: &[u8] = &[1, 0, 0x80, 2, 1, 0x80];

    const CREATION: &[Step<'static>] = &[
        (call!(plug 0, 16), Said::Done),
        (call!(next 0, 1), Said::Sent(CREATE, true)),
        (call!(feed 0, 1, CREATED), Said::Done),
        (call!(next 0, 1), Said::Sent(POLL, true)),
        (call!(feed 0, 1, WAITS), Said::Done),
        (call!(next 0, 1), Said::Sent(&[1, 0, 0x81, 1, 1], true)),
    ];

    const CREATED_LINES: &[Look<'static>] = &[
        Look::Size(0, Some(16)),
        Look::Connection(0, 1, Some((State::Active, true))),
        Look::Connection(0, 2, Some((State::Idle, false))),
        Look::Connection(1, 1, Some((State::Idle, false))),
        Look::Size(1, None),
    ];

    #[test]
    fn creates_and_polls(rt: HostRuntime) -> Result<(), Fail> {
        play(&rt, rt.alloc(), CREATION, CREATED_LINES)
    }

    const ENQUIRES: &[u8] = &[
        1, 0x80, 0xA0, 9, 1, 0x90, 2, 0, 1, 0x9F, 0x80, 0x10, 0, 0x80, 2, 1,
    ];

    const PROFILE: &[u8] = &[
        1, 0x80, 0xA0, 21, 1, 0x90, 2, 0, 1, 0x9F, 0x80, 0x11, 12, 0, 1, 0, 1, 0, 0x41, 0, 2, 0,
        0x41, 0, 0x24, 0, 0x41,
    ];

    const A_SESSION: &[Step<'static>] = &[
        (call!(plug 0, 16), Said::Done),
        (call!(next 0, 1), Said::Sent(CREATE, true)),
        (call!(feed 0, 1, CREATED), Said::Done),
        (call!(next 0, 1), Said::Sent(POLL, true)),
        (call!(feed 0, 1, OPEN), Said::Done),
        (call!(next 0, 1), Said::Sent(OPENED, true)),
        (call!(feed 0, 1, STATUS), Said::Done),
        (call!(next 0, 1), Said::Sent(GREETING, true)),
        (call!(feed 0, 1, ENQUIRES), Said::More),
        (call!(feed 0, 1, &[1, 0, 0]), Said::Done),
        (call!(next 0, 1), Said::Sent(PROFILE, true)),
        (call!(feed 0, 1, CLOSE), Said::Done),
        (
            call!(next 0, 1),
            Said::Sent(&[1, 0, 0xA0, 6, 1, 0x96, 3, 0, 0, 1], true),
        ),
        (call!(feed 0, 1, STATUS), Said::Done),
        (call!(next 0, 1), Said::Sent(POLL, true)),
    ];

    const AFTER_A_SESSION: &[Look<'static>] = &[Look::Session(0, 1, None)];

    #[test]
    fn opens_greets_and_closes(rt: HostRuntime) -> Result<(), Fail> {
        play(&rt, rt.alloc(), A_SESSION, AFTER_A_SESSION)
    }

    const STATUS_2: &[u8] = &[2, 0, 0x80, 2, 2, 0];

    const CLOSES: &[u8] = &[2, 0, 0xA0, 5, 2, 0x95, 2, 0, 1, 0x80, 2, 2, 0];

    const SPEAKS: &[u8] = &[
        2, 0, 0xA0, 9, 2, 0x90, 2, 0, 1, 0x9F, 0x80, 0x10, 0, 0x80, 2, 2, 0,
    ];

    const TWO_CONNECTIONS: &[Step<'static>] = &[
        (call!(plug 3, 32), Said::Done),
        (call!(next 3, 1), Said::Sent(CREATE, true)),
        (call!(feed 3, 1, CREATED), Said::Done),
        (call!(next 3, 1), Said::Sent(POLL, true)),
        (call!(feed 3, 1, OPEN), Said::Done),
        (call!(next 3, 1), Said::Sent(OPENED, true)),
        (call!(feed 3, 1, ASKS), Said::Done),
        (call!(next 3, 1), Said::Sent(&[1, 0, 0x87, 2, 1, 2], true)),
        (call!(feed 3, 1, ASKS), Said::Done),
        (call!(next 3, 1), Said::Sent(&[1, 0, 0x88, 2, 1, 1], true)),
        (call!(next 3, 2), Said::Sent(&[2, 0, 0x82, 1, 2], true)),
        (
            call!(feed 3, 2, &[2, 0, 0x83, 1, 2, 0x80, 2, 2, 0]),
            Said::Done,
        ),
        (call!(next 3, 2), Said::Sent(&[2, 0, 0xA0, 1, 2], true)),
        (call!(feed 3, 2, SPEAKS), Said::Refused(Refusal::NotOpen)),
        (call!(feed 3, 2, CLOSES), Said::Done),
        (
            call!(next 3, 2),
            Said::Sent(&[2, 0, 0xA0, 6, 2, 0x96, 3, 0xF0, 0, 1], true),
        ),
        (call!(feed 3, 2, STATUS_2), Said::Done),
    ];

    const AFTER_TWO_CONNECTIONS: &[Look<'static>] = &[
        Look::Session(3, 1, JUST_OPENED),
        Look::Session(3, 2, None),
        Look::Connection(3, 1, Some((State::Active, true))),
        Look::Connection(3, 2, Some((State::Active, false))),
    ];

    #[test]
    fn one_connection_closes_no_session_of_the_other(rt: HostRuntime) -> Result<(), Fail> {
        play(&rt, rt.alloc(), TWO_CONNECTIONS, AFTER_TWO_CONNECTIONS)
    }

    const A_PULL: &[Step<'static>] = &[
        (call!(plug 2, 32), Said::Done),
        (call!(next 2, 1), Said::Sent(CREATE, true)),
        (call!(pull 2), Said::Done),
        (call!(next 2, 1), Said::Refused(Refusal::Presence)),
        (call!(feed 2, 1, CREATED), Said::Refused(Refusal::Presence)),
        (call!(plug 2, 64), Said::Done),
        (call!(next 2, 1), Said::Refused(Refusal::Turn)),
        (call!(end 2, 1), Said::Refused(Refusal::Turn)),
        (call!(feed 2, 1, CREATED), Said::Refused(Refusal::State)),
        (call!(expire 2, 1), Said::Done),
        (call!(expire 2, 1), Said::Refused(Refusal::Turn)),
        (call!(feed 2, 1, CREATED), Said::Refused(Refusal::Turn)),
    ];

    const AFTER_A_PULL: &[Look<'static>] = &[
        Look::Size(2, Some(64)),
        Look::Connection(2, 1, Some((State::CreateDue, false))),
    ];

    #[test]
    fn a_turn_outlives_a_pull(rt: HostRuntime) -> Result<(), Fail> {
        play(&rt, rt.alloc(), A_PULL, AFTER_A_PULL)
    }

    const REPLIES: &[u8] = &[1, 0, 0x85, 1, 1, 0x80, 2, 1, 0];

    const ENDS: &[Step<'static>] = &[
        (call!(plug 0, 32), Said::Done),
        (call!(next 0, 1), Said::Sent(CREATE, true)),
        (call!(end 0, 1), Said::Refused(Refusal::Turn)),
        (call!(feed 0, 1, CREATED), Said::Done),
        (call!(next 0, 1), Said::Sent(POLL, true)),
        (call!(feed 0, 1, OPEN), Said::Done),
        (call!(end 0, 1), Said::Done),
        (call!(next 0, 1), Said::Sent(&[1, 0, 0x84, 1, 1], true)),
        (call!(feed 0, 1, REPLIES), Said::Done),
        (call!(next 0, 1), Said::Refused(Refusal::State)),
    ];

    const AFTER_ENDS: &[Look<'static>] = &[
        Look::Session(0, 1, None),
        Look::Connection(0, 1, Some((State::Idle, false))),
    ];

    #[test]
    fn ends(rt: HostRuntime) -> Result<(), Fail> {
        play(&rt, rt.alloc(), ENDS, AFTER_ENDS)
    }

    const OPENING: &[Step<'static>] = &[
        (call!(plug 1, 32), Said::Done),
        (call!(next 1, 1), Said::Sent(CREATE, true)),
        (call!(feed 1, 1, CREATED), Said::Done),
        (call!(next 1, 1), Said::Sent(POLL, true)),
        (call!(feed 1, 1, OPEN), Said::Done),
        (call!(next 1, 1), Said::Sent(OPENED, true)),
    ];

    const OPEN_SESSION: &[Look<'static>] = &[
        Look::Session(1, 1, JUST_OPENED),
        Look::Connection(1, 1, Some((State::Active, true))),
    ];

    #[test]
    fn opens(rt: HostRuntime) -> Result<(), Fail> {
        play(&rt, rt.alloc(), OPENING, OPEN_SESSION)
    }

    const EXPIRES: &[Step<'static>] = &[
        (call!(plug 1, 32), Said::Done),
        (call!(next 1, 1), Said::Sent(CREATE, true)),
        (call!(feed 1, 1, CREATED), Said::Done),
        (call!(next 1, 1), Said::Sent(POLL, true)),
        (call!(feed 1, 1, OPEN), Said::Done),
        (call!(next 1, 1), Said::Sent(OPENED, true)),
        (call!(expire 1, 1), Said::Done),
    ];

    const AFTER_EXPIRES: &[Look<'static>] = &[
        Look::Session(1, 1, None),
        Look::Connection(1, 1, Some((State::Idle, false))),
    ];

    #[test]
    fn expires(rt: HostRuntime) -> Result<(), Fail> {
        play(&rt, rt.alloc(), EXPIRES, AFTER_EXPIRES)
    }

    const REFUSALS: &[Step<'static>] = &[
        (call!(plug 4, 15), Said::Refused(Refusal::Slot)),
        (call!(plug 0, 16), Said::Done),
        (call!(plug 0, 15), Said::Refused(Refusal::Size)),
        (call!(plug 0, 16), Said::Refused(Refusal::Presence)),
        (call!(pull 4), Said::Refused(Refusal::Slot)),
        (call!(pull 1), Said::Refused(Refusal::Presence)),
        (call!(end 4, 3), Said::Refused(Refusal::Slot)),
        (call!(end 1, 0), Said::Refused(Refusal::Connection)),
        (call!(end 1, 1), Said::Refused(Refusal::Presence)),
        (call!(end 0, 1), Said::Refused(Refusal::State)),
        (call!(next 4, 3), Said::Refused(Refusal::Slot)),
        (call!(next 1, 3), Said::Refused(Refusal::Connection)),
        (call!(next 1, 1), Said::Refused(Refusal::Presence)),
        (call!(next 0, 2), Said::Refused(Refusal::State)),
        (call!(feed 4, 3, &[]), Said::Refused(Refusal::Slot)),
        (call!(feed 1, 0, &[]), Said::Refused(Refusal::Connection)),
        (call!(feed 1, 1, &[]), Said::Refused(Refusal::Turn)),
        (call!(expire 4, 3), Said::Refused(Refusal::Slot)),
        (call!(expire 1, 3), Said::Refused(Refusal::Connection)),
        (call!(expire 0, 1), Said::Refused(Refusal::Turn)),
        (
            call!(clock [0, 0, 0x24, 0, 0]),
            Said::Refused(Refusal::Clock),
        ),
        (call!(clock [0, 0, 0x23, 0x59, 0x59]), Said::Done),
    ];

    const AFTER_REFUSALS: &[Look<'static>] = &[
        Look::Connection(0, 1, Some((State::CreateDue, false))),
        Look::Connection(4, 1, None),
        Look::Connection(0, 3, None),
        Look::Size(4, None),
        Look::Session(4, 1, None),
        Look::Session(0, 17, None),
    ];

    #[test]
    fn refuses_in_order(rt: HostRuntime) -> Result<(), Fail> {
        play(&rt, rt.alloc(), REFUSALS, AFTER_REFUSALS)
    }

    const PLUGGED: &[Step<'static>] = &[(call!(plug 0, 16), Said::Done)];

    const ROOMS: &[Look<'static>] = &[
        Look::Next(0, 1, Said::Refused(Refusal::Room), &[0xEE; 4]),
        Look::Next(0, 1, Said::Sent(CREATE, true), CREATE),
    ];

    #[test]
    fn a_command_needs_its_room(rt: HostRuntime) -> Result<(), Fail> {
        play(&rt, rt.alloc(), PLUGGED, ROOMS)
    }
}
