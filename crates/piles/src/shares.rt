#[cfg(test)]
mod tests {
    use crate::makers::systematic;
    use crate::making::{stages, stages_of_strata, strata, strata_of_stages};
    use crate::whole::{first_share, first_ways};
    use design::design::Design;
    use design::fault::Fault;
    use design::fraction::Fraction;
    use design::row::Row;
    use std::test::Fail;

    // The ways and the shares of two units.
    type Seen = (u32, [Result<Fraction, Fault>; 2]);

    fn seen<D: Design>(design: &D, units: [u32; 2]) -> Seen {
        (design.ways(), units.map(|k| design.share(k)))
    }

    // What is seen of two units at first, after a throw, and after another, which leads to the outcome.
    fn walk<D: Design + Drop>(
        mut design: D,
        list: &[Row],
        n: u32,
        throws: [u32; 2],
        units: [u32; 2],
    ) -> Result<[Seen; 3], Fail> {
        design.begin(list, n)?;
        let first = seen(&design, units);
        design.step(throws[0])?;
        let second = seen(&design, units);
        design.step(throws[1])?;
        Ok([first, second, seen(&design, units)])
    }

    fn of(a: Fraction, b: Fraction) -> [Result<Fraction, Fault>; 2] {
        [a, b].map(Ok)
    }

    #[test]
    fn strata_in_turn(rt: HostRuntime) -> Result<(), Fail> {
        let heap = rt.alloc();
        let list = [
            Row::new(3, 0, 1),
            Row::new(3, 1, 3),
            Row::new(4, 0, 1),
            Row::new(4, 0, 1),
        ];
        let found = walk(
            strata(heap, systematic(heap)?, &[1, 1])?,
            &list,
            2,
            [1, 0],
            [1, 2],
        )?;
        let expected = [
            (4, of((3, 4), (1, 2))),
            (2, of((4, 4), (1, 2))),
            (0, of((4, 4), (2, 2))),
        ];
        assert_eq!(rt; found, expected);
        Ok(())
    }

    #[test]
    fn two_stages(rt: HostRuntime) -> Result<(), Fail> {
        let heap = rt.alloc();
        let list = [
            Row::new(0, 1, 1),
            Row::new(0, 1, 1),
            Row::new(0, 2, 2),
            Row::new(0, 2, 2),
        ];
        let design = stages(heap, systematic(heap)?, systematic(heap)?, 1)?;
        let found = walk(design, &list, 1, [2, 3], [0, 2])?;
        let expected = [
            (6, of((2, 12), (8, 24))),
            (4, of((0, 12), (12, 24))),
            (0, of((0, 12), (0, 24))),
        ];
        assert_eq!(rt; found, expected);
        Ok(())
    }

    // The first ways of a pile, and the first share of a unit.
    fn first<D: Design + Drop>(
        mut design: D,
        list: &[Row],
        n: u32,
        k: u32,
    ) -> (Result<u32, Fault>, Result<Fraction, Fault>) {
        let ways = first_ways(&mut design, list, n);
        (ways, first_share(&mut design, list, n, k))
    }

    #[test]
    fn whole_strata_of_stages(rt: HostRuntime) -> Result<(), Fail> {
        let list = [Row::new(1, 1, 1), Row::new(1, 2, 2), Row::new(1, 3, 3)];
        let pile = strata_of_stages(rt.alloc(), &[1], 1)?;
        assert_eq!(rt; first(pile, &list, 1, 2), (Ok(3), Ok((9, 18))));
        Ok(())
    }

    #[test]
    fn whole_stages_of_strata(rt: HostRuntime) -> Result<(), Fail> {
        let list = [
            Row::new(1, 1, 1),
            Row::new(1, 1, 1),
            Row::new(1, 2, 2),
            Row::new(1, 2, 2),
        ];
        let pile = stages_of_strata(rt.alloc(), &[1], &[2], 2)?;
        assert_eq!(rt; first(pile, &list, 2, 2), (Ok(6), Ok((16, 24))));
        Ok(())
    }
}
