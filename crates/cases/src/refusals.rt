#[cfg(test)]
mod tests {
    use design::design::Design;
    use design::fault::{Fault, Reason};
    use design::row::Row;
    use std::test::Fail;
    use systematic::Systematic;

    // What begin answers after an accepted one, and whether a run then stands.
    fn begun(s: &mut Systematic, list: &[Row], n: u32) -> (Result<(), Fault>, bool) {
        let _ = s.begin(&[Row::sized(1)], 1);
        (s.begin(list, n), s.share(0).is_ok())
    }

    fn refusal(reason: Reason, row: u32) -> (Result<(), Fault>, bool) {
        (Err(Fault::at(reason, row)), false)
    }

    #[test]
    fn lists_in_the_order_of_the_checks(rt: HostRuntime) -> Result<(), Fail> {
        let mut s = Systematic::new(rt.alloc())?;
        assert_eq!(rt; begun(&mut s, &[], 0), refusal(Reason::EmptyList, 0));
        assert_eq!(rt;
            begun(&mut s, &[Row::sized(0); 1025], 0),
            refusal(Reason::TooManyRows, 0)
        );
        assert_eq!(rt;
            begun(&mut s, &[Row::sized(0)], 0),
            refusal(Reason::NoSample, 0)
        );
        assert_eq!(rt;
            begun(&mut s, &[Row::sized(10_240_001), Row::sized(0)], 2),
            refusal(Reason::SizeZero, 1)
        );
        assert_eq!(rt;
            begun(&mut s, &[Row::sized(10_240_000), Row::sized(1)], 2),
            refusal(Reason::SizesTooLarge, 1)
        );
        assert_eq!(rt;
            begun(&mut s, &[Row::sized(1), Row::sized(5)], 2),
            refusal(Reason::ShareAboveOne, 1)
        );
        Ok(())
    }

    #[test]
    fn limits(rt: HostRuntime) -> Result<(), Fail> {
        let mut s = Systematic::new(rt.alloc())?;
        assert_eq!(rt; begun(&mut s, &[Row::sized(10_240_000)], 1), (Ok(()), true));
        assert_eq!(rt;
            begun(&mut s, &[Row::sized(10_240_001)], 1),
            refusal(Reason::SizesTooLarge, 0)
        );
        assert_eq!(rt;
            begun(&mut s, &[Row::sized(u32::MAX); 2], u32::MAX),
            refusal(Reason::SizesTooLarge, 0)
        );
        assert_eq!(rt; begun(&mut s, &[Row::sized(1); 1024], 1024), (Ok(()), true));
        assert_eq!(rt;
            begun(&mut s, &[Row::sized(1); 1024], 1025),
            refusal(Reason::ShareAboveOne, 0)
        );
        Ok(())
    }

    #[test]
    fn throws_and_units(rt: HostRuntime) -> Result<(), Fail> {
        let mut s = Systematic::new(rt.alloc())?;
        assert_eq!(rt; (s.step(0), s.ways()), (Err(Fault::of(Reason::NoWays)), 0));
        s.begin(&[Row::sized(1), Row::sized(2), Row::sized(3)], 2)?;
        assert_eq!(rt;
            (s.step(6), s.ways()),
            (Err(Fault::of(Reason::NoSuchThrow)), 6)
        );
        assert_eq!(rt;
            (s.share(3), s.taken(u32::MAX)),
            (
                Err(Fault::of(Reason::NoSuchUnit)),
                Err(Fault::of(Reason::NoSuchUnit)),
            )
        );
        assert_eq!(rt;
            (s.step(5), s.step(5), s.ways()),
            (Ok(()), Err(Fault::of(Reason::NoWays)), 0)
        );
        Ok(())
    }

    #[test]
    fn numbers_and_text(rt: HostRuntime) -> Result<(), Fail> {
        assert_eq!(rt;
            [
                Reason::SizesTooLarge.number(),
                Reason::ShareAboveOne.number(),
                Reason::Dry.number(),
            ],
            [5, 6, 21]
        );
        let text = format!(in rt.alloc(); "{}", Fault::at(Reason::ShareAboveOne, 7))?;
        assert_eq!(rt; text.as_str(), "fault 6 at row 7, depth 0");
        Ok(())
    }
}
