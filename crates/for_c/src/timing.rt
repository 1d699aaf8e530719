// Calls that are repeated, so that a caller in another language can time them. They promise nothing but to return.

use crate::repeated::{begin_often, draw_often, report_often, start_and_draw};
use design::row::Row;
use pivotal::Pivotal;
use poisson::Poisson;
use response::respond::respond;
use std::alloc::{AllocError, Global};
use stratified::Stratified;
use survey::survey::Survey;
use systematic::Systematic;
use throws::source::Xorshift32;
use two_stage::TwoStage;

/// The plain designs by numbers, as a caller in another language has no enum of ours.
const SYSTEMATIC: u8 = 0;

const PIVOTAL: u8 = 1;

const POISSON: u8 = 2;

// A source with as many words as there can be.
fn words(seed: u32) -> Xorshift32 {
    Xorshift32::new(seed, u32::MAX)
}

// Rows of these sizes, with strata and clusters where they are given.
fn rows(
    alloc: Global,
    strata: &[u16],
    clusters: &[u16],
    sizes: &[u32],
) -> Result<Vec<Row>, AllocError> {
    let mut list = Vec::new(alloc);
    for (i, size) in sizes.iter().enumerate() {
        let stratum = strata.get(i).copied().unwrap_or(0);
        let cluster = clusters.get(i).copied().unwrap_or(0);
        list.push(Row::new(stratum, cluster, *size))?;
    }
    Ok(list)
}

/// The same answer made so many times; the sum of its lengths.
#[unsafe(no_mangle)]
pub extern "C" fn juntzero_respond_often(alloc: Global, input: &[u8], times: u32) -> u64 {
    let mut sum: u64 = 0;
    for _ in 0..times {
        if let Ok(text) = respond(alloc, input) {
            sum = sum.wrapping_add(text.len() as u64);
        }
    }
    sum
}

fn begins(alloc: Global, method: u8, sizes: &[u32], n: u32, times: u32) -> Result<u64, AllocError> {
    let list = rows(alloc, &[], &[], sizes)?;
    match method {
        SYSTEMATIC => Ok(begin_often(&mut Systematic::new(alloc)?, &list, n, times)),
        PIVOTAL => Ok(begin_often(&mut Pivotal::new(alloc)?, &list, n, times)),
        POISSON => Ok(begin_often(&mut Poisson::new(alloc)?, &list, n, times)),
        _ => Ok(0),
    }
}

/// Begins a plain design on rows of these sizes so many times; the sum of the ways of its first throws.
#[unsafe(no_mangle)]
pub extern "C" fn juntzero_begin(
    alloc: Global,
    method: u8,
    sizes: &[u32],
    n: u32,
    times: u32,
) -> u64 {
    begins(alloc, method, sizes, n, times).unwrap_or(0)
}

fn draws(
    alloc: Global,
    method: u8,
    sizes: &[u32],
    n: u32,
    seed: u32,
    times: u32,
) -> Result<u64, AllocError> {
    let list = rows(alloc, &[], &[], sizes)?;
    let mut source = words(seed);
    match method {
        SYSTEMATIC => Ok(draw_often(&mut Systematic::new(alloc)?, &mut source, &list, n, times)),
        PIVOTAL => Ok(draw_often(&mut Pivotal::new(alloc)?, &mut source, &list, n, times)),
        POISSON => Ok(draw_often(&mut Poisson::new(alloc)?, &mut source, &list, n, times)),
        _ => Ok(0),
    }
}

/// Draws a sample by a plain design so many times; the sum of the numbers of the units taken, from 1.
#[unsafe(no_mangle)]
pub extern "C" fn juntzero_draw(
    alloc: Global,
    method: u8,
    sizes: &[u32],
    n: u32,
    seed: u32,
    times: u32,
) -> u64 {
    draws(alloc, method, sizes, n, seed, times).unwrap_or(0)
}

fn strata_draws(
    alloc: Global,
    list: &[Row],
    takes: &[u32],
    m: u32,
    n: u32,
    seed: u32,
    times: u32,
) -> Result<u64, AllocError> {
    let mut stages = TwoStage::new(alloc, Pivotal::new(alloc)?, Systematic::new(alloc)?)?;
    let _ = stages.within(m);
    let mut design = Stratified::new(alloc, stages)?;
    let _ = design.allot(takes);
    Ok(draw_often(&mut design, &mut words(seed), list, n, times))
}

/// Draws a sample by two-stage drawing in strata so many times; the sum of the numbers of the units taken, from 1.
#[unsafe(no_mangle)]
pub extern "C" fn juntzero_draw_strata(
    alloc: Global,
    strata: &[u16],
    clusters: &[u16],
    sizes: &[u32],
    takes: &[u32],
    m: u32,
    n: u32,
    seed: u32,
    times: u32,
) -> u64 {
    match rows(alloc, strata, clusters, sizes) {
        Ok(list) => strata_draws(alloc, &list, takes, m, n, seed, times).unwrap_or(0),
        Err(_) => 0,
    }
}

fn reports(
    alloc: Global,
    sizes: &[u32],
    n: u32,
    seed: u32,
    amounts: &[i32],
    times: u32,
) -> Result<i64, AllocError> {
    let list = rows(alloc, &[], &[], sizes)?;
    let mut survey = Survey::new(alloc, Systematic::new(alloc)?, words(seed))?;
    start_and_draw(&mut survey, &list, n);
    Ok(report_often(&survey, amounts, times))
}

/// Draws a sample by systematic drawing and reports these amounts so many times; the sum of the reports.
#[unsafe(no_mangle)]
pub extern "C" fn juntzero_report(
    alloc: Global,
    sizes: &[u32],
    n: u32,
    seed: u32,
    amounts: &[i32],
    times: u32,
) -> i64 {
    reports(alloc, sizes, n, seed, amounts, times).unwrap_or(0)
}
