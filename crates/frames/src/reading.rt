#[cfg(test)]
mod tests {
    use design::row::Row;
    use frame_file::fault::{FieldFault, FieldReason};
    use frame_file::frame::{Frame, FrameUnit, Header};
    use reader::reading::read;
    use std::alloc::{AllocError, Global};
    use std::test::Fail;
    use totals::table::Cell;

    fn unit(row: Row, money: i32, at: u8) -> FrameUnit {
        FrameUnit {
            row,
            money,
            cell: Cell { at },
        }
    }

    // The fault for which a file is refused.
    fn fault(heap: Global, bytes: &[u8]) -> Result<Option<FieldFault>, AllocError> {
        let frame = Frame::new(heap)?;
        Ok(read(frame, bytes).err())
    }

    fn at(reason: FieldReason, line: u64, column: u64) -> Option<FieldFault> {
        Some(FieldFault {
            reason,
            line,
            column,
        })
    }

    #[test]
    fn three_units(rt: HostRuntime) -> Result<(), Fail> {
        let frame = Frame::new(rt.alloc())?;
        match read(frame, b"1,1,1\n1\n1,1,1,5,0\n1,1,2,-4,4\n1,2,3,7,4\n") {
            Ok(frame) => {
                assert_eq!(rt;
                    frame.header,
                    Header {
                        n: 1,
                        m: 1,
                        seed: 1
                    }
                );
                assert_eq!(rt; frame.takes.as_slice(), [1].as_slice());
                assert_eq!(rt;
                    frame.units.as_slice(),
                    [
                        unit(Row::new(1, 1, 1), 5, 0),
                        unit(Row::new(1, 1, 2), -4, 4),
                        unit(Row::new(1, 2, 3), 7, 4),
                    ]
                    .as_slice()
                );
                Ok(())
            }
            Err(_) => Err(Fail::new("refused")),
        }
    }

    #[test]
    fn what_a_frame_held_before_is_gone(rt: HostRuntime) -> Result<(), Fail> {
        let mut frame = Frame::new(rt.alloc())?;
        frame.takes.push(7);
        frame.units.push(unit(Row::new(9, 9, 9), 9, 3));
        match read(frame, b"3,1,5\n2,1\n0,65535,10000,-1000000,5\n") {
            Ok(frame) => {
                assert_eq!(rt;
                    frame.header,
                    Header {
                        n: 3,
                        m: 1,
                        seed: 5
                    }
                );
                assert_eq!(rt; frame.takes.as_slice(), [2, 1].as_slice());
                assert_eq!(rt;
                    frame.units.as_slice(),
                    [unit(Row::new(0, 65_535, 10_000), -1_000_000, 5)].as_slice()
                );
                Ok(())
            }
            Err(_) => Err(Fail::new("refused")),
        }
    }

    #[test]
    fn lines(rt: HostRuntime) -> Result<(), Fail> {
        let heap = rt.alloc();
        assert_eq!(rt; fault(heap, b"")?, at(FieldReason::Shape, 1, 1));
        assert_eq!(rt; fault(heap, b"1,x,1")?, at(FieldReason::Shape, 1, 1));
        assert_eq!(rt; fault(heap, b"1,1,1\n")?, at(FieldReason::Shape, 2, 1));
        assert_eq!(rt;
            fault(heap, b"1,1,1\n1\n")?,
            at(FieldReason::UnitCount, 3, 1)
        );
        assert_eq!(rt;
            fault(heap, b"1,1,1\n1\n1,1,1,5,0")?,
            at(FieldReason::Shape, 3, 1)
        );
        assert_eq!(rt;
            fault(heap, b"1,1,1\n1\n1,1,1,5,0\n\n")?,
            at(FieldReason::NotANumber, 4, 1)
        );
        Ok(())
    }

    #[test]
    fn fields(rt: HostRuntime) -> Result<(), Fail> {
        let heap = rt.alloc();
        assert_eq!(rt; fault(heap, b"1,1\n")?, at(FieldReason::Shape, 1, 3));
        assert_eq!(rt; fault(heap, b"1,1,1,x\n")?, at(FieldReason::Shape, 1, 4));
        assert_eq!(rt;
            fault(heap, b"1,01,1\n")?,
            at(FieldReason::NotANumber, 1, 2)
        );
        assert_eq!(rt; fault(heap, b"1,1,0\n")?, at(FieldReason::OutOfRange, 1, 3));
        assert_eq!(rt;
            fault(heap, b"1,1,36893488147419103233\n")?,
            at(FieldReason::OutOfRange, 1, 3)
        );
        assert_eq!(rt;
            fault(heap, b"1,1,1\n1,0,,\n")?,
            at(FieldReason::OutOfRange, 2, 2)
        );
        assert_eq!(rt;
            fault(heap, b"1,1,1\n1\n1,1,1,-0,0\n")?,
            at(FieldReason::NotANumber, 3, 4)
        );
        assert_eq!(rt;
            fault(heap, b"1,1,1\n1\n1,1,1,-1000001,0\n")?,
            at(FieldReason::OutOfRange, 3, 4)
        );
        assert_eq!(rt;
            fault(heap, b"1,1,1\n1\n1,1,1,+5,0\n")?,
            at(FieldReason::NotANumber, 3, 4)
        );
        Ok(())
    }

    // A text, and so many times the same more.
    fn text(heap: Global, begin: &[u8], count: u32, more: &[u8]) -> Result<Vec<u8>, AllocError> {
        let mut text = Vec::new(heap);
        text.extend_from_slice(begin)?;
        for _ in 0..count {
            text.extend_from_slice(more)?;
        }
        Ok(text)
    }

    #[test]
    fn counts(rt: HostRuntime) -> Result<(), Fail> {
        let heap = rt.alloc();
        let takes = text(heap, b"1,1,1\n1", 63, b",1")?;
        assert_eq!(rt;
            fault(heap, &text(heap, &takes, 1, b"\n")?)?,
            at(FieldReason::UnitCount, 3, 1)
        );
        assert_eq!(rt;
            fault(heap, &text(heap, &takes, 1, b",1\n")?)?,
            at(FieldReason::Shape, 2, 65)
        );
        let units = text(heap, b"1,1,1\n1\n", 1024, b"0,0,1,0,0\n")?;
        assert_eq!(rt; fault(heap, &units)?, None);
        assert_eq!(rt;
            fault(heap, &text(heap, &units, 1, b"x\n")?)?,
            at(FieldReason::UnitCount, 1027, 1)
        );
        assert_eq!(rt;
            fault(heap, &text(heap, b"", 32_768, b"\n")?)?,
            at(FieldReason::NotANumber, 1, 1)
        );
        assert_eq!(rt;
            fault(heap, &text(heap, b"", 32_769, b"\n")?)?,
            at(FieldReason::FileTooLong, 0, 0)
        );
        Ok(())
    }
}
