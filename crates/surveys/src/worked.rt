#[cfg(test)]
mod tests {
    use design::row::Row;
    use poisson::Poisson;
    use std::alloc::Global;
    use std::test::Fail;
    use survey::survey::Survey;
    use systematic::Systematic;
    use throws::source::Listed;
    use totals::money::Money;
    use totals::table::{Cell, Table};
    use totals::total::Total;

    // What systematic drawing of 2 units from sizes 1, 2 and 3 reports by this word, and the amount.
    fn by_word(
        heap: Global,
        word: u32,
        readings: &[i32; 3],
    ) -> Result<((u32, u32), Option<i64>), Fail> {
        let words = [word];
        let mut survey = Survey::new(heap, Systematic::new(heap)?, Listed::new(&words))?;
        let mut total = Money::new();
        survey.start(&[Row::sized(1), Row::sized(2), Row::sized(3)], 2)?;
        survey.draw()?;
        let report = survey.report(readings, &mut total)?;
        Ok((report, total.entry(0)))
    }

    // The scale is 2 and the weights are 6, 3 and 2; throws 0 and 1 take the units 0 and 2, the others 1 and 2.
    #[test]
    fn systematic_by_each_throw(rt: HostRuntime) -> Result<(), Fail> {
        let amounts = [
            (0, [5, -4, 7], 44),
            (1, [5, -4, 7], 44),
            (2, [5, -4, 7], 2),
            (3, [5, -4, 7], 2),
            (4, [5, -4, 7], 2),
            (5, [5, -4, 7], 2),
            (1, [1, 0, 0], 6),
            (2, [0, 1, 0], 3),
            (5, [0, 0, 1], 2),
        ];
        let report = (2, 2);
        for (word, readings, amount) in amounts {
            assert_eq!(rt;
                by_word(rt.alloc(), word, &readings)?,
                (report, Some(amount)),
                "word {word}"
            );
        }
        Ok(())
    }

    // Two units of size 1, one of them wanted: each is taken by a throw 0 of its own, with weight 2, and none is as good an outcome.
    #[test]
    fn poisson_with_the_empty_outcome(rt: HostRuntime) -> Result<(), Fail> {
        let words = [0, 0, 1, 1, 1, 0];
        let design = Poisson::new(rt.alloc())?;
        let mut survey = Survey::new(rt.alloc(), design, Listed::new(&words))?;
        let mut table = Table::new();
        for (taken, north, south) in [(2, 2, 2), (0, 0, 0), (1, 0, 2)] {
            survey.start(&[Row::sized(1); 2], 1)?;
            survey.draw()?;
            survey.draw()?;
            let report = survey.report(&[Cell { at: 0 }, Cell { at: 5 }], &mut table)?;
            assert_eq!(rt; report, (1, taken));
            assert_eq!(rt;
                [
                    table.entry(0),
                    table.entry(1),
                    table.entry(5),
                    table.entry(6)
                ],
                [Some(north), Some(0), Some(south), None]
            );
        }
        Ok(())
    }
}
