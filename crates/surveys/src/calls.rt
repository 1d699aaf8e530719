#[cfg(test)]
mod tests {
    use design::fault::{Fault, Reason};
    use design::row::Row;
    use plain_survey::call::{Answer, Call};
    use plain_survey::either::Either;
    use std::alloc::Global;
    use std::test::Fail;
    use survey::ledger::Both;
    use survey::survey::Survey;
    use systematic::Systematic;
    use throws::source::Listed;
    use totals::money::Money;
    use totals::table::{Cell, Table};
    use totals::total::Total;

    const ONE: Row = Row {
        stratum: 0,
        cluster: 0,
        size: 1,
    };

    const TWO: Row = Row { size: 2, ..ONE };

    const THREE: Row = Row { size: 3, ..ONE };

    // The word of throw 1, and one that no throw with 6 ways can use.
    const WORDS: [u32; 2] = [1, 4_294_967_295];

    // A survey from its start to its stop, with questions too early and too late.
    static ONE_SAMPLE: [Call<'static, &'static [i32]>; 16] = [
        Call::Start(&[ONE, TWO, THREE], 2),
        Call::Share(0),
        Call::Taken(2),
        Call::Report(&[5, -4, 7]),
        Call::Draw,
        Call::Draw,
        Call::Share(0),
        Call::Taken(1),
        Call::Report(&[1, 1, 1]),
        Call::Report(&[5, -4, 7]),
        Call::Report(&[5, -4]),
        Call::Report(&[5, -4, 1_000_001]),
        Call::Stop,
        Call::Share(0),
        Call::Draw,
        Call::Report(&[5, -4, 7]),
    ];

    // The second sample finds no word that serves, and the third a unit whose share would be above 1.
    static THREE_STARTS: [Call<'static, &'static [i32]>; 11] = [
        Call::Taken(0),
        Call::Start(&[ONE, TWO, THREE], 2),
        Call::Draw,
        Call::Start(&[ONE, TWO, THREE], 2),
        Call::Draw,
        Call::Draw,
        Call::Share(0),
        Call::Share(3),
        Call::Start(&[ONE, TWO], 2),
        Call::Taken(0),
        Call::Draw,
    ];

    // Makes the calls in a new survey over systematic drawing: where an answer first differs from the expected one, and the amount.
    fn conducted(
        heap: Global,
        calls: &[Call<'_, &[i32]>],
        expected: &[Answer],
    ) -> Result<(Option<usize>, Option<i64>), Fail> {
        let mut survey = Survey::new(heap, Systematic::new(heap)?, Listed::new(&WORDS))?;
        let mut total = Money::new();
        let answers = survey.conduct(heap, calls, &mut total)?;
        let differs = answers.iter().zip(expected).position(|(a, b)| a != b);
        Ok((differs, total.entry(0)))
    }

    fn no<T>(reason: Reason) -> Result<T, Fault> {
        Err(Fault::of(reason))
    }

    #[test]
    fn one_sample(rt: HostRuntime) -> Result<(), Fail> {
        let report = (2, 2);
        let unlawful = Fault::at(Reason::UnlawfulReading, 2);
        let expected = [
            Answer::Started(Ok(())),
            Answer::Shared(Ok((2, 6))),
            Answer::Taken(Ok(true)),
            Answer::Reported(no(Reason::NoFinishedRun)),
            Answer::Drawn(Ok(())),
            Answer::Drawn(no(Reason::NoWays)),
            Answer::Shared(Ok((6, 6))),
            Answer::Taken(Ok(false)),
            Answer::Reported(Ok(report)),
            Answer::Reported(Ok(report)),
            Answer::Reported(no(Reason::ReadingsNotAsUnits)),
            Answer::Reported(Err(unlawful)),
            Answer::Stopped,
            Answer::Shared(no(Reason::NoSuchUnit)),
            Answer::Drawn(no(Reason::NoWays)),
            Answer::Reported(no(Reason::NoFinishedRun)),
        ];
        let heap = rt.alloc();
        assert_eq!(rt; conducted(heap, &ONE_SAMPLE, &expected)?, (None, Some(44)));
        Ok(())
    }

    // A dry draw leaves the tree as it was, and a refused start leaves no run.
    #[test]
    fn three_starts(rt: HostRuntime) -> Result<(), Fail> {
        let expected = [
            Answer::Taken(no(Reason::NoSuchUnit)),
            Answer::Started(Ok(())),
            Answer::Drawn(Ok(())),
            Answer::Started(Ok(())),
            Answer::Drawn(no(Reason::Dry)),
            Answer::Drawn(no(Reason::Dry)),
            Answer::Shared(Ok((2, 6))),
            Answer::Shared(no(Reason::NoSuchUnit)),
            Answer::Started(Err(Fault::at(Reason::ShareAboveOne, 1))),
            Answer::Taken(no(Reason::NoSuchUnit)),
            Answer::Drawn(no(Reason::NoWays)),
        ];
        let heap = rt.alloc();
        assert_eq!(rt; conducted(heap, &THREE_STARTS, &expected)?, (None, Some(0)));
        Ok(())
    }

    // Reports into a table, an amount and a second amount, asked for by readings of each kind.
    type Asked = Either<&'static [Cell], Either<&'static [i32], &'static [i32]>>;

    static INTO_THREE: [Call<'static, Asked>; 9] = [
        Call::Start(&[ONE, TWO, THREE], 2),
        Call::Report(Either::First(&[Cell { at: 0 }, Cell { at: 1 }, Cell { at: 2 }])),
        Call::Draw,
        Call::Report(Either::Second(Either::First(&[5, -4, 7]))),
        Call::Report(Either::First(&[Cell { at: 4 }, Cell { at: 1 }, Cell { at: 4 }])),
        Call::Report(Either::Second(Either::Second(&[1, 1, 1]))),
        Call::Report(Either::First(&[Cell { at: 6 }, Cell { at: 1 }, Cell { at: 4 }])),
        Call::Report(Either::Second(Either::First(&[5, -4, 7]))),
        Call::Stop,
    ];

    #[test]
    fn into_three_totals(rt: HostRuntime) -> Result<(), Fail> {
        let report = (2, 2);
        let expected = [
            Answer::Started(Ok(())),
            Answer::Reported(no(Reason::NoFinishedRun)),
            Answer::Drawn(Ok(())),
            Answer::Reported(Ok(report)),
            Answer::Reported(Ok(report)),
            Answer::Reported(Ok(report)),
            Answer::Reported(Err(Fault::at(Reason::UnlawfulReading, 0))),
            Answer::Reported(Ok(report)),
            Answer::Stopped,
        ];
        let heap = rt.alloc();
        let mut survey = Survey::new(heap, Systematic::new(heap)?, Listed::new(&WORDS))?;
        let mut totals = Both {
            first: Table::new(),
            second: Both {
                first: Money::new(),
                second: Money::new(),
            },
        };
        let answers = survey.conduct(heap, &INTO_THREE, &mut totals)?;
        let differs = answers.iter().zip(&expected).position(|(a, b)| a != b);
        assert_eq!(rt; differs, None);
        assert_eq!(rt; totals.first.entry(4), Some(8));
        assert_eq!(rt; totals.second.first.entry(0), Some(44));
        assert_eq!(rt; totals.second.second.entry(0), Some(8));
        Ok(())
    }
}
