// Every kind of good and damaged unit.

#[cfg(test)]
mod tests {
    use std::test::Fail;
    use wire::{
        ApduReader, Command, Cursor, Fault, LinkFault, LpduReader, ResponseObject, SessionReply,
        SessionRequest, SpduReader, TpduReader, WriteFault, write_command, write_length,
        write_lpdus, write_reply,
    };

    // A unit, and its fault where it has one.
    type Case = (&'static [u8], Option<Fault>);

    fn length(bytes: &[u8]) -> Option<usize> {
        Cursor::new(bytes).length().ok()
    }

    const LENGTHS: &[(&'static [u8], Option<usize>)] = &[
        (&[0x7F], Some(127)),
        (&[0x00, 0x05], Some(0)),
        (&[0x81, 0x80], Some(128)),
        (&[0x81, 0x05], Some(5)),
        (&[0x82, 0x01, 0x00], Some(256)),
        (&[0x82, 0x00, 0x05], Some(5)),
        (&[], None),
        (&[0x80], None),
        (&[0x81], None),
        (&[0x82, 0x01], None),
        (&[0x83, 0x00, 0x00, 0x05], None),
    ];

    #[test]
    fn lengths(rt: HostRuntime) {
        for (bytes, value) in LENGTHS {
            assert_eq!(rt; length(bytes), *value);
        }
    }

    fn link_fault(bytes: &[u8]) -> Option<LinkFault> {
        LpduReader::new(bytes).fragment(16, 1).err()
    }

    const LINK_UNITS: &[(&'static [u8], Option<LinkFault>)] = &[
        (&[0x01, 0x00, 0xAA], None),
        (&[0x01, 0x80, 0xAA], None),
        (&[0x01; 16], Some(LinkFault::Mark)),
        (&[], Some(LinkFault::Short)),
        (&[0x02, 0x01], Some(LinkFault::Short)),
        (&[0x02; 17], Some(LinkFault::Long)),
        (&[0x02, 0x01, 0xAA], Some(LinkFault::Connection)),
        (&[0x01, 0x40, 0xAA], Some(LinkFault::Mark)),
    ];

    #[test]
    fn link_units(rt: HostRuntime) {
        for (bytes, fault) in LINK_UNITS {
            assert_eq!(rt; link_fault(bytes), *fault);
        }
    }

    fn response_fault(bytes: &[u8]) -> Option<Fault> {
        TpduReader::new(bytes)
            .response(1)
            .err()
            .map(|fault| fault.0)
    }

    const MODULE_TRANSPORT_UNITS: &[Case] = &[
        (&[0x80, 0x02, 0x01, 0x00], None),
        (&[0x80, 0x81, 0x02, 0x01, 0x7F], None),
        (&[0x83, 0x01, 0x01, 0x80, 0x02, 0x01, 0x00], None),
        (
            &[0x84, 0x82, 0x00, 0x01, 0x01, 0x80, 0x02, 0x01, 0x80],
            None,
        ),
        (&[0x85, 0x01, 0x01, 0x80, 0x02, 0x01, 0x00], None),
        (&[0x86, 0x01, 0x01, 0x80, 0x02, 0x01, 0x00], None),
        (&[0xA0, 0x01, 0x01, 0x80, 0x02, 0x01, 0x00], None),
        (&[0xA1, 0x02, 0x01, 0xAA, 0x80, 0x02, 0x01, 0x00], None),
        (&[], Some(Fault::Length)),
        (&[0x81, 0x01, 0x01], Some(Fault::Tag)),
        (&[0x82, 0x01, 0x01], Some(Fault::Tag)),
        (&[0x87, 0x02, 0x01, 0x02], Some(Fault::Tag)),
        (&[0x80, 0x03, 0x01, 0x00, 0x00], Some(Fault::Length)),
        (&[0x80, 0x02, 0x01], Some(Fault::Length)),
        (&[0x80, 0x02, 0x02, 0x00], Some(Fault::Content)),
        (&[0x80, 0x02, 0x02, 0x00, 0x00], Some(Fault::Content)),
        (&[0x80, 0x02, 0x01, 0x00, 0x00], Some(Fault::Length)),
        (
            &[0x83, 0x02, 0x01, 0x00, 0x80, 0x02, 0x01, 0x00],
            Some(Fault::Length),
        ),
        (&[0xA0, 0x00, 0x80, 0x02, 0x01, 0x00], Some(Fault::Length)),
        (&[0xA0, 0x05, 0x02, 0xAA], Some(Fault::Length)),
        (&[0x83, 0x01, 0x01], Some(Fault::Length)),
        (&[0x83, 0x01, 0x01, 0x83, 0x01, 0x01], Some(Fault::Tag)),
    ];

    #[test]
    fn module_transport_units(rt: HostRuntime) {
        for (bytes, fault) in MODULE_TRANSPORT_UNITS {
            assert_eq!(rt; response_fault(bytes), *fault);
        }
    }

    fn command_fault(bytes: &[u8]) -> Option<Fault> {
        TpduReader::new(bytes).command(1).err().map(|fault| fault.0)
    }

    const HOST_TRANSPORT_UNITS: &[Case] = &[
        (&[0x82, 0x01, 0x01], None),
        (&[0x84, 0x01, 0x01], None),
        (&[0x85, 0x01, 0x01], None),
        (&[0x81, 0x01, 0x01], None),
        (&[0xA0, 0x01, 0x01], None),
        (&[0x87, 0x02, 0x01, 0x02], None),
        (&[0x88, 0x02, 0x01, 0x01], None),
        (&[], Some(Fault::Length)),
        (&[0x83, 0x01, 0x01], Some(Fault::Tag)),
        (&[0xA1, 0x01, 0x01], Some(Fault::Tag)),
        (&[0x87, 0x01, 0x01], Some(Fault::Length)),
        (&[0x82, 0x01, 0x02], Some(Fault::Content)),
        (&[0x82, 0x01, 0x01, 0x80], Some(Fault::Length)),
    ];

    #[test]
    fn host_transport_units(rt: HostRuntime) {
        for (bytes, fault) in HOST_TRANSPORT_UNITS {
            assert_eq!(rt; command_fault(bytes), *fault);
        }
    }

    fn request_fault(bytes: &[u8]) -> Option<Fault> {
        SpduReader::new(bytes).request().err().map(|fault| fault.0)
    }

    fn reply_fault(bytes: &[u8]) -> Option<Fault> {
        SpduReader::new(bytes).reply().err().map(|fault| fault.0)
    }

    const REQUESTS: &[Case] = &[
        (&[0x91, 0x04, 0x00, 0x01, 0x00, 0x41], None),
        (&[0x95, 0x02, 0x00, 0x01], None),
        (&[0x90, 0x02, 0x00, 0x01], None),
        (&[0x90, 0x81, 0x02, 0x00, 0x01, 0x9F], None),
        (&[], Some(Fault::Length)),
        (&[0x92, 0x07], Some(Fault::Tag)),
        (&[0x91, 0x03, 0x00, 0x01, 0x00], Some(Fault::Length)),
        (&[0x95, 0x02, 0x00, 0x01, 0x00], Some(Fault::Length)),
        (&[0x90, 0x02, 0x00], Some(Fault::Length)),
    ];

    const REPLIES: &[Case] = &[
        (
            &[0x92, 0x07, 0x00, 0x00, 0x01, 0x00, 0x41, 0x00, 0x01],
            None,
        ),
        (&[0x96, 0x03, 0xF0, 0x00, 0x01], None),
        (&[0x90, 0x02, 0x00, 0x01, 0x9F, 0x80, 0x10, 0x00], None),
        (&[0x91, 0x04, 0x00, 0x01, 0x00, 0x41], Some(Fault::Tag)),
        (
            &[0x92, 0x06, 0x00, 0x00, 0x01, 0x00, 0x41, 0x00],
            Some(Fault::Length),
        ),
        (&[0x96, 0x03, 0x00, 0x00, 0x01, 0x00], Some(Fault::Length)),
    ];

    #[test]
    fn session_units(rt: HostRuntime) {
        for (bytes, fault) in REQUESTS {
            assert_eq!(rt; request_fault(bytes), *fault);
        }
        for (bytes, fault) in REPLIES {
            assert_eq!(rt; reply_fault(bytes), *fault);
        }
    }

    fn object_fault(bytes: &[u8]) -> Option<Fault> {
        ApduReader::new(bytes).object().err().map(|fault| fault.0)
    }

    const APPLICATION_OBJECTS: &[Case] = &[
        (&[0x9F, 0x80, 0x10, 0x00], None),
        (&[0x9F, 0x84, 0x40, 0x81, 0x01, 0x05], None),
        (&[], Some(Fault::Length)),
        (&[0x9F], Some(Fault::Length)),
        (&[0x9F, 0x80], Some(Fault::Length)),
        (&[0x9E], Some(Fault::Tag)),
        (&[0x9F, 0x00], Some(Fault::Tag)),
        (&[0x9F, 0x7F, 0x10, 0x00], Some(Fault::Tag)),
        (&[0x9F, 0x80, 0x80, 0x00], Some(Fault::Tag)),
        (&[0x9F, 0x80, 0x10], Some(Fault::Length)),
        (&[0x9F, 0x80, 0x10, 0x01], Some(Fault::Length)),
        (&[0x9F, 0x80, 0x10, 0x00, 0x00], Some(Fault::Length)),
    ];

    #[test]
    fn application_objects(rt: HostRuntime) {
        for (bytes, fault) in APPLICATION_OBJECTS {
            assert_eq!(rt; object_fault(bytes), *fault);
        }
    }

    #[test]
    fn bodies(rt: HostRuntime) -> Result<(), Fail> {
        let tpdu = [0xA0, 0x81, 0x03, 0x01, 0x90, 0x02, 0x80, 0x02, 0x01, 0x80];
        let Ok(response) = TpduReader::new(&tpdu).response(1) else {
            return Err(Fail::new("a response"));
        };
        assert!(rt; response.available);
        let ResponseObject::DataLast(data) = response.object else {
            return Err(Fail::new("data"));
        };
        assert_eq!(rt; data.offset, 4);
        assert!(rt; data.bytes == [0x90, 0x02].as_slice());
        let Ok(SessionRequest::Data(number, body)) = SpduReader::new(&[
            0x90, 0x02, 0x01, 0x02, 0x9F,
        ]).request() else {
            return Err(Fail::new("a body"));
        };
        assert_eq!(rt; number, 0x0102);
        assert_eq!(rt; body.offset, 4);
        assert!(rt; body.bytes == [0x9F].as_slice());
        Ok(())
    }

    #[test]
    fn writers(rt: HostRuntime) {
        let mut out = [0xEE; 12];
        assert_eq!(rt; write_length(128, &mut out), Ok(2));
        assert!(rt; out[0] == 0x81 && out[1] == 0x80 && out[2] == 0xEE);
        let data: &[u8] = &[0x90];
        let command = Command::Data(data);
        assert_eq!(rt; write_command(1, command, &mut out), Ok(4));
        assert!(rt;
            out[0] == 0xA0 && out[1] == 2 && out[2] == 1 && out[3] == 0x90 && out[4] == 0xEE
        );
    }

    #[test]
    fn nothing_is_written_without_room(rt: HostRuntime) {
        let mut out = [0xEE; 4];
        let data: &[u8] = &[0x9F];
        let reply = SessionReply::Data(7, data);
        assert_eq!(rt; write_reply(reply, &mut out), Err(WriteFault::Room));
        assert!(rt; out == [0xEE; 4]);
    }

    #[test]
    fn link_units_of_a_size(rt: HostRuntime) {
        let mut out = [0xEE; 8];
        assert_eq!(rt; write_lpdus(1, 2, &[1], &mut out), Err(WriteFault::Size));
        assert_eq!(rt; write_lpdus(1, 4, &[1, 2, 3], &mut out), Ok(7));
        assert!(rt; out == [1, 0x80, 1, 2, 1, 0x00, 3, 0xEE]);
    }
}
