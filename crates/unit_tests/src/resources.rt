// Conversations with Resource Manager, Application Information and Date-Time.
#[cfg(test)]
mod tests {
    use resource::{ApduBuf, RefusalByte, Resource};
    use standard::{
        APPLICATION_INFORMATION, DATE_TIME, DateTime, Information, Manager, RESOURCE_MANAGER,
        STANDARD_IDENTIFIERS, standard_under_quota,
    };
    use std::process::Abort;
    use wire::Apdu;

    // What is answered to an object, with the bytes of a reply.
    type Answer<'a> = Result<Option<&'a [u8]>, RefusalByte>;

    // A session's slot, identifier and number.
    type Session = (u8, u32, u8);

    // A call to a resource, and what it answers: of `ready`, the status byte. An object is a tag and a body.
    #[derive(Clone, Copy)]
    enum Step<'a> {
        Opened(Session),
        Closed(Session),
        Gone(u8),
        Clock([u8; 5]),
        Find(u32, Option<u32>),
        Ready(u8, u32, u8),
        Greeting(u32, Option<&'a [u8]>),
        Count(u8, usize),
        Object(Session, u32, &'a [u8], Answer<'a>),
    }

    fn bytes(piece: &Option<ApduBuf>) -> Option<&[u8]> {
        piece.as_ref().map(|piece| piece.bytes())
    }

    fn answer_of(answer: &Result<Option<ApduBuf>, RefusalByte>) -> Answer<'_> {
        match answer {
            Ok(reply) => Ok(bytes(reply)),
            Err(refused) => Err(*refused),
        }
    }

    // Makes a call, and tells whether it answers as the step says.
    fn agrees<R: Resource>(resource: &mut R, step: Step<'_>) -> bool {
        match step {
            Step::Opened((slot, identifier, number)) => {
                resource.opened(slot, identifier, number);
                true
            }
            Step::Closed((slot, identifier, number)) => {
                resource.closed(slot, identifier, number);
                true
            }
            Step::Gone(slot) => {
                resource.gone(slot);
                true
            }
            Step::Clock(time) => {
                resource.clock(time);
                true
            }
            Step::Find(identifier, found) => resource.find(identifier) == found,
            Step::Ready(slot, identifier, status) => {
                u8::from(resource.ready(slot, identifier)) == status
            }
            Step::Greeting(identifier, greeting) => {
                bytes(&resource.greeting(identifier)) == greeting
            }
            Step::Count(slot, count) => resource.count(slot) == count,
            Step::Object((slot, identifier, number), tag, body, answer) => {
                answer_of(&resource.object(slot, identifier, number, Apdu { tag, body })) == answer
            }
        }
    }

    fn play_on<R: Resource>(rt: &impl Abort, resource: &mut R, steps: &[Step<'_>]) {
        for (i, step) in steps.iter().enumerate() {
            assert!(rt; agrees(resource, *step), "step {i}");
        }
    }

    fn play<R: Resource + Drop>(rt: &impl Abort, mut resource: R, steps: &[Step<'_>]) {
        play_on(rt, &mut resource, steps);
    }

    const WRONG_LENGTH: Answer<'static> = Err(RefusalByte(1));

    const TIME_TOLD: &[Step<'static>] = &[
        Step::Find(0x00240042, Some(DATE_TIME)),
        Step::Find(RESOURCE_MANAGER, None),
        Step::Greeting(DATE_TIME, None),
        Step::Opened((0, DATE_TIME, 1)),
        Step::Object((0, DATE_TIME, 1), 0x9F8440, &[0], Ok(None)),
        Step::Clock([0xC0, 0x79, 0x12, 0x45, 0x00]),
        Step::Object(
            (0, DATE_TIME, 1),
            0x9F8440,
            &[0],
            Ok(Some(&[0x9F, 0x84, 0x41, 5, 0xC0, 0x79, 0x12, 0x45, 0x00])),
        ),
        Step::Object((0, DATE_TIME, 1), 0x9F8440, &[], WRONG_LENGTH),
        Step::Object((0, DATE_TIME, 1), 0x9F8440, &[0, 0], WRONG_LENGTH),
        Step::Object((0, DATE_TIME, 1), 0x9F8441, &[0], Ok(None)),
        // Not held, and in another slot.
        Step::Object((0, DATE_TIME, 2), 0x9F8440, &[0], Ok(None)),
        Step::Object((1, DATE_TIME, 1), 0x9F8440, &[0], Ok(None)),
    ];

    #[test]
    fn date_time(rt: HostRuntime) {
        play(&rt, DateTime::resource(), TIME_TOLD);
    }

    const CHANGED: Answer<'static> = Ok(Some(&[0x9F, 0x80, 0x12, 0]));

    const PROFILES: &[Step<'static>] = &[
        Step::Greeting(RESOURCE_MANAGER, Some(&[0x9F, 0x80, 0x10, 0])),
        Step::Opened((2, RESOURCE_MANAGER, 1)),
        Step::Opened((2, RESOURCE_MANAGER, 16)),
        Step::Object(
            (2, RESOURCE_MANAGER, 1),
            0x9F8010,
            &[],
            Ok(Some(&[0x9F, 0x80, 0x11, 8, 0, 1, 0, 0x41, 0, 0x24, 0, 0x41])),
        ),
        Step::Object((2, RESOURCE_MANAGER, 1), 0x9F8010, &[0], WRONG_LENGTH),
        Step::Object((2, RESOURCE_MANAGER, 1), 0x9F8011, &[0, 1, 0], WRONG_LENGTH),
        Step::Object(
            (2, RESOURCE_MANAGER, 1),
            0x9F8011,
            &[0, 1, 0, 0x41],
            CHANGED,
        ),
        Step::Object((2, RESOURCE_MANAGER, 1), 0x9F8011, &[], Ok(None)),
        Step::Object((2, RESOURCE_MANAGER, 16), 0x9F8011, &[], CHANGED),
        Step::Object((2, RESOURCE_MANAGER, 16), 0x9F8011, &[], Ok(None)),
        Step::Object(
            (2, RESOURCE_MANAGER, 16),
            0x9F8012,
            &[],
            Ok(Some(&[0x9F, 0x80, 0x10, 0])),
        ),
        Step::Object((2, RESOURCE_MANAGER, 16), 0x9F8012, &[0], WRONG_LENGTH),
        Step::Object((2, RESOURCE_MANAGER, 16), 0x9F8020, &[], Ok(None)),
        Step::Closed((2, RESOURCE_MANAGER, 1)),
        Step::Opened((2, RESOURCE_MANAGER, 1)),
        Step::Object((2, RESOURCE_MANAGER, 1), 0x9F8011, &[], CHANGED),
    ];

    #[test]
    fn manager(rt: HostRuntime) {
        let resource = Manager::resource(&[RESOURCE_MANAGER, DATE_TIME]);
        play(&rt, resource, PROFILES);
    }

    const SIXTEEN: &[Step<'static>] = &[
        Step::Opened((0, RESOURCE_MANAGER, 1)),
        Step::Object(
            (0, RESOURCE_MANAGER, 1),
            0x9F8010,
            &[],
            Ok(Some(&[
                0x9F, 0x80, 0x11, 64, 0, 0x24, 0, 0x41, 0, 0x24, 0, 0x41, 0, 0x24, 0, 0x41, 0,
                0x24, 0, 0x41, 0, 0x24, 0, 0x41, 0, 0x24, 0, 0x41, 0, 0x24, 0, 0x41, 0, 0x24, 0,
                0x41, 0, 0x24, 0, 0x41, 0, 0x24, 0, 0x41, 0, 0x24, 0, 0x41, 0, 0x24, 0, 0x41, 0,
                0x24, 0, 0x41, 0, 0x24, 0, 0x41, 0, 0x24, 0, 0x41, 0, 0x24, 0, 0x41,
            ])),
        ),
    ];

    const NONE: &[Step<'static>] = &[
        Step::Opened((0, RESOURCE_MANAGER, 1)),
        Step::Object(
            (0, RESOURCE_MANAGER, 1),
            0x9F8010,
            &[],
            Ok(Some(&[0x9F, 0x80, 0x11, 0])),
        ),
    ];

    #[test]
    fn announces_sixteen_at_most(rt: HostRuntime) {
        play(&rt, Manager::resource(&[DATE_TIME; 17]), SIXTEEN);
        play(&rt, Manager::resource(&[]), NONE);
    }

    const HI: &[u8] = &[1, 2, 3, 4, 5, 2, 0x48, 0x69];

    const TOLD: &[Step<'static>] = &[
        Step::Greeting(APPLICATION_INFORMATION, Some(&[0x9F, 0x80, 0x20, 0])),
        Step::Opened((1, APPLICATION_INFORMATION, 3)),
        Step::Object((1, APPLICATION_INFORMATION, 3), 0x9F8021, HI, Ok(None)),
        Step::Object(
            (1, APPLICATION_INFORMATION, 3),
            0x9F8021,
            &[1, 2, 3, 4, 5, 2, 0x48],
            WRONG_LENGTH,
        ),
        Step::Object(
            (1, APPLICATION_INFORMATION, 3),
            0x9F8021,
            &[1, 2, 3, 4, 5],
            WRONG_LENGTH,
        ),
        Step::Object((1, APPLICATION_INFORMATION, 3), 0x9F8020, &[], Ok(None)),
        Step::Closed((1, APPLICATION_INFORMATION, 3)),
    ];

    const TOLD_AND_GONE: &[Step<'static>] = &[
        Step::Opened((1, APPLICATION_INFORMATION, 3)),
        Step::Object((1, APPLICATION_INFORMATION, 3), 0x9F8021, HI, Ok(None)),
        Step::Closed((1, APPLICATION_INFORMATION, 3)),
        Step::Gone(1),
    ];

    const LONGEST: &[Step<'static>] = &[
        Step::Opened((0, APPLICATION_INFORMATION, 1)),
        Step::Object(
            (0, APPLICATION_INFORMATION, 1),
            0x9F8021,
            &[0xFF; 261],
            Ok(None),
        ),
    ];

    // What is kept for a slot.
    type Latest<'a> = (u8, Option<&'a [u8]>);

    fn keeps(rt: &impl Abort, information: &Information, kept: &[Latest<'_>]) {
        for &(slot, expected) in kept {
            assert!(rt; information.latest(slot) == expected, "slot {slot}");
        }
    }

    // Plays the steps on a new resource, and holds what it keeps against the table.
    fn inform(rt: &impl Abort, steps: &[Step<'_>], kept: &[Latest<'_>]) {
        let mut resource = Information::resource();
        play_on(rt, &mut resource, steps);
        keeps(rt, resource.handler(), kept);
    }

    const KEPT: &[Latest<'static>] = &[(0, None), (1, Some(HI)), (2, None), (3, None), (4, None)];

    const FORGOTTEN: &[Latest<'static>] = &[(1, None)];

    const LONGEST_KEPT: &[Latest<'static>] = &[(0, Some(&[0xFF; 261])), (1, None)];

    #[test]
    fn information(rt: HostRuntime) {
        inform(&rt, TOLD, KEPT);
        inform(&rt, TOLD_AND_GONE, FORGOTTEN);
        inform(&rt, LONGEST, LONGEST_KEPT);
    }

    const UNDER_A_QUOTA: &[Step<'static>] = &[
        Step::Find(0x00020050, Some(APPLICATION_INFORMATION)),
        // Listed, not listed, and in a slot that there is not.
        Step::Ready(0, DATE_TIME, 0),
        Step::Ready(0, 0x00240042, 0xF1),
        Step::Ready(4, DATE_TIME, 0xF1),
        Step::Opened((0, RESOURCE_MANAGER, 0)),
        Step::Opened((0, RESOURCE_MANAGER, 17)),
        Step::Opened((4, RESOURCE_MANAGER, 1)),
        Step::Count(0, 0),
        Step::Opened((0, RESOURCE_MANAGER, 1)),
        Step::Opened((0, RESOURCE_MANAGER, 1)),
        Step::Count(0, 1),
        Step::Opened((0, DATE_TIME, 2)),
        Step::Closed((0, RESOURCE_MANAGER, 2)),
        Step::Count(0, 2),
        // As many as the quota, in slot 0 alone, and none when the module is gone.
        Step::Ready(0, APPLICATION_INFORMATION, 0xF3),
        Step::Ready(1, APPLICATION_INFORMATION, 0),
        Step::Gone(0),
        Step::Count(0, 0),
        Step::Ready(0, APPLICATION_INFORMATION, 0),
    ];

    #[test]
    fn all_under_a_quota(rt: HostRuntime) {
        play(
            &rt,
            standard_under_quota(2, &STANDARD_IDENTIFIERS),
            UNDER_A_QUOTA,
        );
    }

    // One conversation with all three, under a quota of three.
    const CONVERSATION: &[Step<'static>] = &[
        Step::Ready(0, RESOURCE_MANAGER, 0),
        Step::Opened((0, RESOURCE_MANAGER, 1)),
        Step::Greeting(RESOURCE_MANAGER, Some(&[0x9F, 0x80, 0x10, 0])),
        Step::Object((0, RESOURCE_MANAGER, 1), 0x9F8011, &[], CHANGED),
        Step::Object(
            (0, RESOURCE_MANAGER, 1),
            0x9F8010,
            &[],
            Ok(Some(&[
                0x9F, 0x80, 0x11, 12, 0, 1, 0, 0x41, 0, 2, 0, 0x41, 0, 0x24, 0, 0x41,
            ])),
        ),
        Step::Object((0, RESOURCE_MANAGER, 1), 0x9F8012, &[0], WRONG_LENGTH),
        Step::Ready(0, APPLICATION_INFORMATION, 0),
        Step::Opened((0, APPLICATION_INFORMATION, 2)),
        Step::Greeting(APPLICATION_INFORMATION, Some(&[0x9F, 0x80, 0x20, 0])),
        Step::Object((0, APPLICATION_INFORMATION, 2), 0x9F8021, HI, Ok(None)),
        Step::Ready(0, DATE_TIME, 0),
        Step::Opened((0, DATE_TIME, 3)),
        Step::Greeting(DATE_TIME, None),
        Step::Clock([0xE6, 0x3C, 0x12, 0x30, 0x00]),
        Step::Object(
            (0, DATE_TIME, 3),
            0x9F8440,
            &[0],
            Ok(Some(&[0x9F, 0x84, 0x41, 5, 0xE6, 0x3C, 0x12, 0x30, 0x00])),
        ),
        Step::Count(0, 3),
        Step::Ready(0, DATE_TIME, 0xF3),
    ];

    #[test]
    fn all_three_converse(rt: HostRuntime) {
        play(
            &rt,
            standard_under_quota(3, &STANDARD_IDENTIFIERS),
            CONVERSATION,
        );
    }
}
