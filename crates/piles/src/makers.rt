// Makers of plain designs, and of layers that may have nothing set; generic in the designs below, so that what a test checks is small.
use design::design::Design;
use design::row::Row;
use pivotal::Pivotal;
use std::alloc::Global;
use std::test::Fail;
use stratified::Stratified;
use systematic::Systematic;
use two_stage::TwoStage;

pub fn systematic(heap: Global) -> Result<Systematic, Fail> {
    Ok(Systematic::new(heap)?)
}

pub fn pivotal(heap: Global) -> Result<Pivotal, Fail> {
    Ok(Pivotal::new(heap)?)
}

// Stratification with these takes, or with none set where allot refuses them.
pub fn strata_or_unset<D: Design + Drop>(
    heap: Global,
    below: D,
    takes: &[u32],
) -> Result<Stratified<D>, Fail> {
    let mut strata = Stratified::new(heap, below)?;
    let _ = strata.allot(takes);
    Ok(strata)
}

// Two-stage drawing with m of each cluster, or with no number set where within refuses it.
pub fn stages_or_unset<A: Design + Drop, B: Design + Drop>(
    heap: Global,
    first: A,
    second: B,
    m: u32,
) -> Result<TwoStage<A, B>, Fail> {
    let mut stages = TwoStage::new(heap, first, second)?;
    let _ = stages.within(m);
    Ok(stages)
}

// Rows of these sizes, the first two in stratum 1, and the others in stratum 2.
pub fn sized(sizes: [u32; 5]) -> [Row; 5] {
    let [a, b, c, d, e] = sizes;
    [
        Row::new(1, 0, a),
        Row::new(1, 0, b),
        Row::new(2, 0, c),
        Row::new(2, 0, d),
        Row::new(2, 0, e),
    ]
}
