#[cfg(test)]
mod tests {
    use crate::makers::{pivotal, sized, stages_or_unset, strata_or_unset, systematic};
    use crate::making::{stages, strata, strata_of_stages};
    use design::design::Design;
    use design::fault::Fault;
    use design::row::Row;
    use std::alloc::Global;
    use std::test::Fail;
    use stratified::Stratified;
    use systematic::Systematic;

    // The number, the row and the depth of a refusal.
    type Told = Option<(u8, u32, u8)>;

    fn told<T: Drop>(answer: Result<T, Fault>) -> Told {
        answer.err().map(|f| (f.reason.number(), f.row, f.depth))
    }

    // What a design refuses.
    fn refused<D: Design + Drop>(mut design: D, list: &[Row], n: u32) -> Told {
        told(design.begin(list, n))
    }

    // What two stratifications over a design refuse, which give half of n to each of the strata 1 and 2.
    fn by_halves<D: Design + Drop>(
        heap: Global,
        below: D,
        list: &[Row],
        n: u32,
    ) -> Result<Told, Fail> {
        let half = n / 2;
        let inner = strata(heap, below, &[half])?;
        Ok(refused(strata(heap, inner, &[half, half])?, list, n))
    }

    // 1 and 2 are the outer layer's alone, as every part has rows, and no more than the list; 3 comes from no layer, as takes are above 0.
    #[test]
    fn of_rows(rt: HostRuntime) -> Result<(), Fail> {
        let heap = rt.alloc();
        let found = [
            by_halves(heap, systematic(heap)?, &[], 4)?,
            by_halves(heap, systematic(heap)?, &[Row::sized(1); 1025], 4)?,
            by_halves(heap, systematic(heap)?, &sized([1, 1, 0, 3, 0]), 4)?,
            by_halves(heap, systematic(heap)?, &sized([1, 1, 10_240_000, 1, 1]), 4)?,
            by_halves(heap, systematic(heap)?, &sized([1, 1, 2, 2, 9]), 4)?,
        ];
        let expected = [(1, 0, 0), (2, 0, 0), (4, 2, 2), (5, 3, 2), (6, 4, 2)];
        assert_eq!(rt; found, expected.map(Some));
        Ok(())
    }

    // A part of a layer is of one stratum, and by_halves gives every part the same take. So 10, 12, 13 and 14 come here from the first part.
    #[test]
    fn of_strata(rt: HostRuntime) -> Result<(), Fail> {
        let heap = rt.alloc();
        let list = sized([1, 1, 1, 1, 1]);
        let found = [
            by_halves(
                heap,
                strata_or_unset(heap, systematic(heap)?, &[])?,
                &list,
                2,
            )?,
            by_halves(heap, strata(heap, systematic(heap)?, &[1, 1])?, &list, 4)?,
            by_halves(heap, strata(heap, systematic(heap)?, &[2])?, &list, 2)?,
        ];
        let expected = [(10, 0, 2), (12, 0, 2), (13, 0, 2)];
        assert_eq!(rt; found, expected.map(Some));
        Ok(())
    }

    // What two stratifications over two-stage drawing refuse, with m of each cluster.
    fn by_clusters(heap: Global, m: u32, list: &[Row], n: u32) -> Result<Told, Fail> {
        by_halves(
            heap,
            stages_or_unset(heap, systematic(heap)?, systematic(heap)?, m)?,
            list,
            n,
        )
    }

    // Rows of 132 clusters, the first two in stratum 1, and the others in stratum 2.
    fn crowd() -> [Row; 132] {
        let mut list = [Row::new(1, 0, 1); 132];
        for k in 2..132u16 {
            list[k as usize] = Row::new(2, k, 1);
        }
        list
    }

    #[test]
    fn of_clusters(rt: HostRuntime) -> Result<(), Fail> {
        let heap = rt.alloc();
        let level = sized([1, 1, 1, 1, 1]);
        let mut falling = level;
        falling[2].cluster = 3;
        falling[3].cluster = 2;
        let found = [
            by_clusters(heap, 0, &level, 2)?,
            by_clusters(heap, 1, &falling, 2)?,
            by_clusters(heap, 2, &level, 6)?,
            by_clusters(heap, 1, &crowd(), 2)?,
        ];
        let expected = [(10, 0, 2), (11, 3, 2), (14, 0, 2), (15, 130, 2)];
        assert_eq!(rt; found, expected.map(Some));
        Ok(())
    }

    // The denominators of three stages multiply. In stratum 2 they do so to little over 2 million at row 2, and to 8 * 10^18 at row 3.
    #[test]
    fn of_three_stages(rt: HostRuntime) -> Result<(), Fail> {
        let heap = rt.alloc();
        let mut list = sized([1, 1, 1, 1_000_000, 1_000_000]);
        list[3].cluster = 1;
        list[4].cluster = 1;
        let inner = stages(heap, systematic(heap)?, systematic(heap)?, 1)?;
        let stages = stages(heap, systematic(heap)?, inner, 1)?;
        let found = by_halves(heap, stages, &list, 2)?;
        assert_eq!(rt; found, Some((16, 3, 2)));
        Ok(())
    }

    // The first stage draws one cluster of stratum 1, and two of stratum 2, where its takes add up to one.
    #[test]
    fn of_strata_in_the_first_stage(rt: HostRuntime) -> Result<(), Fail> {
        let heap = rt.alloc();
        let first = strata(heap, systematic(heap)?, &[1])?;
        let stages = stages(heap, first, systematic(heap)?, 2)?;
        let pile = strata(heap, stages, &[2, 4])?;
        let list = [
            Row::new(1, 0, 1),
            Row::new(1, 0, 1),
            Row::new(2, 0, 1),
            Row::new(2, 0, 1),
            Row::new(2, 1, 1),
            Row::new(2, 1, 1),
        ];
        assert_eq!(rt; refused(pile, &list, 6), Some((13, 2, 2)));
        Ok(())
    }

    // What a stratification refuses over two-stage drawing, pivotal and then systematic, with 2 of each cluster.
    fn by_stages(heap: Global, list: &[Row], n: u32, takes: &[u32]) -> Result<Told, Fail> {
        Ok(refused(strata_of_stages(heap, takes, 2)?, list, n))
    }

    // A share above 1 of a cluster in the first stage, and of a unit in the second.
    #[test]
    fn of_either_stage(rt: HostRuntime) -> Result<(), Fail> {
        let mut first = sized([1, 1, 1, 1, 9]);
        first[4].cluster = 5;
        let second = [
            Row::new(1, 0, 1),
            Row::new(1, 0, 1),
            Row::new(2, 0, 5),
            Row::new(2, 0, 5),
            Row::new(2, 5, 1),
            Row::new(2, 5, 9),
        ];
        let found = [
            by_stages(rt.alloc(), &first, 6, &[2, 4])?,
            by_stages(rt.alloc(), &second, 6, &[2, 4])?,
        ];
        assert_eq!(rt; found, [Some((6, 4, 2)), Some((6, 5, 2))]);
        Ok(())
    }

    // What a design that is asked too early refuses of a throw and of a unit; then, once it has begun, of one past the last; and of a throw
    // after its outcome, to which these throws lead.
    fn asked<D: Design + Drop>(
        mut design: D,
        list: &[Row],
        n: u32,
        throws: &[u32],
    ) -> Result<[Told; 7], Fail> {
        let [a, b, c] = [
            told(design.step(0)),
            told(design.share(0)),
            told(design.taken(0)),
        ];
        design.begin(list, n)?;
        let end = list.len() as u32;
        let past = design.ways();
        let [d, e, f] = [
            told(design.step(past)),
            told(design.share(end)),
            told(design.taken(end)),
        ];
        for throw in throws {
            design.step(*throw)?;
        }
        Ok([a, b, c, d, e, f, told(design.step(0))])
    }

    // Each design refuses these by the call's own rule, so the depth is 0 however deep it is found.
    #[test]
    fn of_throws_and_units(rt: HostRuntime) -> Result<(), Fail> {
        let heap = rt.alloc();
        let inner = strata(heap, systematic(heap)?, &[1])?;
        let pile = strata(heap, inner, &[1, 1])?;
        let found = asked(pile, &sized([1, 1, 1, 1, 1]), 2, &[1, 2])?;
        let numbers = [17, 19, 19, 18, 19, 19, 17];
        assert_eq!(rt; found, numbers.map(|number| Some((number, 0, 0))));
        Ok(())
    }

    // What one stratification of these takes refuses of a list.
    fn by_takes(heap: Global, takes: &[u32], list: &[Row], n: u32) -> Result<Told, Fail> {
        Ok(refused(strata_or_unset(heap, pivotal(heap)?, takes)?, list, n))
    }

    #[test]
    fn of_the_outer_layer(rt: HostRuntime) -> Result<(), Fail> {
        let heap = rt.alloc();
        let falling = [Row::new(2, 0, 1), Row::new(1, 0, 1)];
        let rising = [Row::new(1, 0, 1), Row::new(2, 0, 1)];
        let found = [
            by_takes(heap, &[1, 0], &rising, 2)?,
            by_takes(heap, &[1, 1], &falling, 2)?,
            by_takes(heap, &[1, 1], &rising, 3)?,
            by_takes(heap, &[1, 1], &rising[1..], 2)?,
        ];
        let expected = [(10, 0, 0), (11, 1, 0), (13, 0, 0), (12, 0, 0)];
        assert_eq!(rt; found, expected.map(Some));
        let mut layer: Stratified<Systematic> = strata(heap, systematic(heap)?, &[1])?;
        assert_eq!(rt;
            [told(layer.allot(&[])), told(layer.allot(&[1, 0]))],
            [Some((7, 0, 0)), Some((8, 0, 0))]
        );
        Ok(())
    }
}
