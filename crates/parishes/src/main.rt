//! Draws a stratified and a two-stage sample of the fields of three parishes, and prints each taken field with its prescribed share.
#![tactic(auto)]

mod fields;

use design::design::Design;
use design::fault::Fault;
use design::fraction::Fraction;
use fields::{FIELDS, Field, rows};
use pivotal::Pivotal;
use std::alloc::Global;
use stratified::Stratified;
use systematic::Systematic;
use throws::source::{Source, Xorshift32};
use throws::throw::throw;
use two_stage::TwoStage;

// The take of each parish. Both tables add up to the sample.
const TAKES: [u32; 3] = [2, 1, 2];

// Three of the fields of Brook would give one of them a share above 1.
const TAKES_TOO_LARGE: [u32; 3] = [1, 3, 1];

const SAMPLE: u32 = 5;

const HAMLETS: u32 = 3;

// How many fields are taken of each hamlet that is drawn.
const WITHIN: u32 = 1;

const SEED: u32 = 1949;

const WORDS: u32 = 64;

// Throws until the run has come to its outcome. The loop counts its turns, since nothing else shows that it ends; a source of so many words
// is dry before they are up.
fn draw<D: Design, S: Source>(design: &mut D, source: &mut S) -> Result<(), Fault> {
    for _ in 0..=WORDS {
        let ways = design.ways();
        if ways == 0 {
            break;
        }
        let d = throw(source, ways)?;
        design.step(d)?;
    }
    Ok(())
}

// The share of each field in the present tree: directly after begin, the prescribed one.
fn shares_of<D: Design>(heap: Global, design: &D) -> anyhow::Result<Vec<Fraction>> {
    let mut shares = Vec::new(heap);
    for k in 0..FIELDS.len() {
        let share = design.share(k as u32)?;
        shares.push(share)?;
    }
    Ok(shares)
}

fn print_field(rt: &impl Print, k: u32, field: &Field, share: &Fraction) -> anyhow::Result<()> {
    let parish = field.parish.name();
    let hamlet = field.hamlet;
    let hectares = field.hectares;
    let (part, whole) = *share;
    println!(rt; "{k:>4}  {parish:>6}  {hamlet:>6}  {hectares:>8}  {part:>5} / {whole:>5}")?;
    Ok(())
}

fn print_taken<D: Design>(rt: &impl Print, design: &D, shares: &[Fraction]) -> anyhow::Result<()> {
    println!(rt; "unit  parish  hamlet  hectares          share")?;
    for (i, (field, share)) in FIELDS.iter().zip(shares).enumerate() {
        let k = i as u32;
        if design.taken(k)? {
            print_field(rt, k, field, share)?;
        }
    }
    println!(rt)?;
    Ok(())
}

// Begins a run on the fields, draws it to its outcome and prints the fields taken. The design comes by value and is dropped here, where it
// is any design, as the drop of a known layer costs its function a long proof.
fn sample<D: Design + Drop, S: Source>(
    rt: &HostRuntime,
    mut design: D,
    n: u32,
    source: &mut S,
) -> anyhow::Result<()> {
    design.begin(&rows(), n)?;
    let shares = shares_of(rt.alloc(), &design)?;
    draw(&mut design, source)?;
    print_taken(rt, &design, &shares)
}

// Begins a run on the fields that is to be refused, and prints the fault.
fn refuse<D: Design + Drop>(rt: &impl Print, mut design: D, n: u32) -> anyhow::Result<()> {
    match design.begin(&rows(), n) {
        Ok(()) => println!(rt; "accepted")?,
        Err(fault) => println!(rt; "refused: {fault}")?,
    }
    Ok(())
}

fn by_parish(heap: Global, takes: &[u32]) -> anyhow::Result<Stratified<Systematic>> {
    let mut design = Stratified::new(heap, Systematic::new(heap)?)?;
    design.allot(takes)?;
    Ok(design)
}

fn by_hamlet(heap: Global) -> anyhow::Result<TwoStage<Pivotal, Systematic>> {
    let mut design = TwoStage::new(heap, Pivotal::new(heap)?, Systematic::new(heap)?)?;
    design.within(WITHIN)?;
    Ok(design)
}

fn print_takes(rt: &impl Print, takes: [u32; 3]) -> anyhow::Result<()> {
    let [a, b, c] = takes;
    println!(rt; "Stratified, systematic in each parish: takes of {a}, {b} and {c}")?;
    Ok(())
}

fn print_stages(rt: &impl Print) -> anyhow::Result<()> {
    println!(rt;
        "Two-stage, pivotal of hamlets and systematic in each: {WITHIN} field of each of {HAMLETS} hamlets"
    )?;
    Ok(())
}

fn sample_parishes<S: Source>(rt: &HostRuntime, source: &mut S) -> anyhow::Result<()> {
    print_takes(rt, TAKES)?;
    sample(rt, by_parish(rt.alloc(), &TAKES)?, SAMPLE, source)
}

fn sample_hamlets<S: Source>(rt: &HostRuntime, source: &mut S) -> anyhow::Result<()> {
    print_stages(rt)?;
    sample(rt, by_hamlet(rt.alloc())?, HAMLETS * WITHIN, source)
}

fn refuse_parishes(rt: &HostRuntime) -> anyhow::Result<()> {
    print_takes(rt, TAKES_TOO_LARGE)?;
    refuse(rt, by_parish(rt.alloc(), &TAKES_TOO_LARGE)?, SAMPLE)
}

fn run(rt: &HostRuntime) -> anyhow::Result<()> {
    let mut source = Xorshift32::new(SEED, WORDS);
    sample_parishes(rt, &mut source)?;
    sample_hamlets(rt, &mut source)?;
    refuse_parishes(rt)
}

fn main(rt: HostRuntime) -> anyhow::Result<()> {
    run(&rt)
}
