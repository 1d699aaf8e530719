#[cfg(test)]
mod tests {
    use design::fault::{Fault, Reason};
    use design::row::Row;
    use std::alloc::Global;
    use std::test::Fail;
    use stratified::Stratified;
    use survey::survey::Survey;
    use systematic::Systematic;
    use throws::source::Listed;

    // What start answers on units of these sizes, one of them wanted, and whether a run then stands.
    fn started(heap: Global, sizes: &[u32; 3]) -> Result<(Result<(), Fault>, bool), Fail> {
        let mut survey = Survey::new(heap, Systematic::new(heap)?, Listed::new(&[]))?;
        let answer = survey.start(&sizes.map(|size| Row::sized(size)), 1);
        Ok((answer, survey.share(0).is_ok()))
    }

    // Shares of 64, 15,625 and 32 over 15,721 have the scale 1,000,000, and with the sizes 31,621, 2 and 1 the largest weight is
    // 31,621 times 31,624, just below 1,000,000,000. The sizes 997, 1,009 and 1 would give too large a weight as well.
    #[test]
    fn scale_and_weights_at_their_limits(rt: HostRuntime) -> Result<(), Fail> {
        let frames = [
            ([64, 15_625, 32], Ok(()), true),
            (
                [997, 1_009, 1],
                Err(Fault::of(Reason::ScaleTooLarge)),
                false,
            ),
            ([31_621, 2, 1], Ok(()), true),
            (
                [31_622, 2, 1],
                Err(Fault::at(Reason::DesignWeightTooLarge, 2)),
                false,
            ),
            (
                [31_622, 2, 3],
                Err(Fault::at(Reason::DesignWeightTooLarge, 1)),
                false,
            ),
        ];
        for (sizes, answer, stands) in frames {
            assert_eq!(rt; started(rt.alloc(), &sizes)?, (answer, stands));
        }
        Ok(())
    }

    // A fault of the design below has come through the layer; one of the survey's own has not.
    #[test]
    fn below_a_layer(rt: HostRuntime) -> Result<(), Fail> {
        let mut layer = Stratified::new(rt.alloc(), Systematic::new(rt.alloc())?)?;
        layer.allot(&[1, 1])?;
        let mut survey = Survey::new(rt.alloc(), layer, Listed::new(&[]))?;
        let mut list = [
            Row::new(1, 0, 1),
            Row::new(2, 0, 31_621),
            Row::new(2, 0, 2),
            Row::new(2, 0, 1),
        ];
        assert_eq!(rt;
            (survey.start(&list, 2), survey.share(3).is_ok()),
            (Ok(()), true)
        );
        list[1].size = 31_622;
        assert_eq!(rt;
            (survey.start(&list, 2), survey.share(3).is_ok()),
            (Err(Fault::at(Reason::DesignWeightTooLarge, 3)), false)
        );
        list[2].size = 0;
        assert_eq!(rt;
            survey.start(&list, 2),
            Err(Fault::at(Reason::SizeZero, 2).passed_up(2))
        );
        Ok(())
    }

    #[test]
    fn published_numbers(rt: HostRuntime) {
        let reasons = [
            Reason::NoWays,
            Reason::NoSuchUnit,
            Reason::Dry,
            Reason::ScaleTooLarge,
            Reason::DesignWeightTooLarge,
            Reason::NoFinishedRun,
            Reason::ReadingsNotAsUnits,
            Reason::UnlawfulReading,
        ];
        assert_eq!(rt;
            reasons.map(|reason| reason.number()),
            [17, 19, 21, 22, 23, 24, 25, 26]
        );
    }
}
