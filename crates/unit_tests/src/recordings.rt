// What the decoder's libraries make of lines and bytes, and names.
#[cfg(test)]
mod tests {
    use recording::names::{hex_word, resource_name};
    use recording::{BadLine, Direction, JoinError, PartialUnit, RecordingLine, parse_line};
    use std::io;
    use std::test::Fail;
    use text::{LineError, Lines};

    #[test]
    fn good_lines(rt: HostRuntime) -> Result<(), Fail> {
        let mut bytes = Vec::new(rt.alloc());
        assert_eq!(rt; parse_line(b" \t", &mut bytes)?, RecordingLine::Blank);
        assert_eq!(rt; parse_line(b"# slot 9", &mut bytes)?, RecordingLine::Blank);
        assert_eq!(rt;
            parse_line(b"slot\t3 ", &mut bytes)?,
            RecordingLine::Slot(3)
        );
        assert_eq!(rt;
            parse_line(b"< 01 00  80\t02 01 fF ", &mut bytes)?,
            RecordingLine::Lpdu(Direction::FromModule)
        );
        assert!(rt; bytes.as_slice() == [0x01, 0x00, 0x80, 0x02, 0x01, 0xFF].as_slice());
        assert_eq!(rt;
            parse_line(b">", &mut bytes)?,
            RecordingLine::Lpdu(Direction::FromHost)
        );
        assert!(rt; bytes.is_empty());
        Ok(())
    }

    #[test]
    fn bad_lines(rt: HostRuntime) -> Result<(), Fail> {
        let mut bytes = Vec::new(rt.alloc());
        let lines: [(&[u8], BadLine); 16] = [
            (b"> 1", BadLine::Hex),
            (b"> 0G", BadLine::Hex),
            (b"> 0100", BadLine::Hex),
            (b">01", BadLine::Hex),
            (b"< 01 0 0", BadLine::Hex),
            (b"> 01 x", BadLine::Hex),
            (b"slot", BadLine::Slot),
            (b"slot 4", BadLine::Slot),
            (b"slot3", BadLine::Slot),
            (b"slot 1 2", BadLine::Slot),
            (b"slot 00", BadLine::Slot),
            (b"01 00", BadLine::Word),
            (b" > 01", BadLine::Word),
            (b"slo", BadLine::Word),
            (b"Slot 1", BadLine::Word),
            (&[b' '; 8193], BadLine::Long),
        ];
        for (line, reason) in lines {
            assert_eq!(rt; parse_line(line, &mut bytes), Err(LineError::Bad(reason)));
        }
        Ok(())
    }

    #[test]
    fn bytes_are_kept_up_to_a_limit(rt: HostRuntime) {
        let mut kept = PartialUnit::new(rt.alloc(), 3);
        assert_eq!(rt; kept.add(&[1, 2]), Ok(()));
        assert_eq!(rt; kept.add(&[3, 4]), Err(JoinError::Limit));
        assert_eq!(rt; kept.add(&[5]), Err(JoinError::Limit));
        kept.clear();
        assert_eq!(rt; kept.add(&[6]), Ok(()));
        assert!(rt; kept.bytes() == [6].as_slice());
    }

    #[test]
    fn lines_in_one_vector(rt: HostRuntime) -> io::Result<()> {
        let input: &[u8] = b"abc\nabcde\n\nx";
        let mut lines = Lines::new(rt.alloc(), input, 3)?;
        let mut line = Vec::new(rt.alloc());
        let expected: [&[u8]; 4] = [b"abc", b"abcd", b"", b"x"];
        for text in expected {
            assert!(rt; lines.read_into(&mut line)?);
            assert!(rt; line.as_slice() == text);
        }
        assert!(rt; !lines.read_into(&mut line)?);
        assert!(rt; line.is_empty());
        Ok(())
    }

    #[test]
    fn resources(rt: HostRuntime) {
        assert_eq!(rt; resource_name(0x00010041), Some("Resource Manager"));
        assert_eq!(rt; resource_name(0x0024007F), Some("Date-Time"));
        assert_eq!(rt; resource_name(0x00400081), None);
        assert_eq!(rt;
            hex_word(0x0024007F),
            ['0', '0', '2', '4', '0', '0', '7', 'F']
        );
    }
}
