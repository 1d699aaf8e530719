//! Runs a survey of households from its start to its stop, and prints the shares, the throws, the households taken, two reports, and
//! what is refused after the stop.
#![tactic(auto)]

mod households;

use design::design::Design;
use design::fault::{Fault, Reason};
use households::{HOUSEHOLDS, frame};
use pivotal::Pivotal;
use std::ops::Range;
use stratified::Stratified;
use survey::survey::Survey;
use throws::source::{Source, Xorshift32};
use totals::money::Money;
use totals::table::Table;
use totals::total::Total;

// How many households of each region are taken.
const TAKES: [u32; 2] = [2, 2];

const SAMPLE: u32 = 4;

const SEED: u32 = 1969;

const WORDS: u32 = 64;

// The frame with each household's share in the present tree; directly after the start it is the prescribed one.
fn print_frame<D: Design, S: Source>(rt: &impl Print, survey: &Survey<D, S>) -> anyhow::Result<()> {
    println!(rt; "unit  household  region  persons  share")?;
    for (i, household) in HOUSEHOLDS.iter().enumerate() {
        let (part, whole) = survey.share(i as u32)?;
        let name = household.name;
        let region = household.region.name();
        let persons = household.persons;
        println!(rt; "{i:>4}  {name:<9}  {region:<6}  {persons:>7}  {part:>2}/{whole}")?;
    }
    Ok(())
}

// Draws until the survey refuses, and answers how many throws that took and the refusal. The loop counts its turns, which shows
// that it ends.
fn draw_all<D: Design, S: Source>(survey: &mut Survey<D, S>) -> (u32, Fault) {
    for throws in 0..WORDS {
        if let Err(fault) = survey.draw() {
            return (throws, fault);
        }
    }
    (WORDS, Fault::of(Reason::Dry))
}

// The households taken, with their readings.
fn print_taken<D: Design, S: Source>(rt: &impl Print, survey: &Survey<D, S>) -> anyhow::Result<()> {
    println!(rt; "taken  household  spending  cell")?;
    for (i, household) in HOUSEHOLDS.iter().enumerate() {
        if survey.taken(i as u32)? {
            let name = household.name;
            let spending = household.spending;
            let cell = household.cell().at;
            println!(rt; "{i:>5}  {name:<9}  {spending:>8}  {cell:>4}")?;
        }
    }
    Ok(())
}

// Reports one kind of readings into a total, prints scale and number of units taken, and answers the scale.
fn print_report<D: Design, S: Source, T: Total>(
    rt: &impl Print,
    kind: &str,
    survey: &Survey<D, S>,
    readings: &[T::Reading],
    total: &mut T,
) -> anyhow::Result<u32> {
    let (scale, taken) = survey.report(readings, total)?;
    println!(rt; "\n{kind}: scale {scale}, {taken} taken")?;
    Ok(scale)
}

// The estimates of some entries, each as the entry over the scale.
fn print_estimates<T: Total>(
    rt: &impl Print,
    label: &str,
    total: &T,
    entries: Range<usize>,
    scale: u32,
) -> anyhow::Result<()> {
    print!(rt; "{label:<9}")?;
    for i in entries {
        if let Some(entry) = total.entry(i) {
            print!(rt; "  {entry:>8}/{scale}")?;
        }
    }
    println!(rt)?;
    Ok(())
}

// Both reports of an outcome.
fn print_reports<D: Design, S: Source>(
    rt: &impl Print,
    survey: &Survey<D, S>,
) -> anyhow::Result<()> {
    let spending = HOUSEHOLDS.map(|household| household.spending);
    let mut money = Money::new();
    let scale = print_report(rt, "yearly spending", survey, &spending, &mut money)?;
    print_estimates(rt, "estimate", &money, 0..1, scale)?;
    let cells = HOUSEHOLDS.map(|household| household.cell());
    let mut table = Table::new();
    let scale = print_report(rt, "dwellings", survey, &cells, &mut table)?;
    println!(rt; "                 house         flat         farm")?;
    print_estimates(rt, "north", &table, 0..3, scale)?;
    print_estimates(rt, "south", &table, 3..6, scale)
}

// A whole run of a survey.
fn run<D: Design, S: Source>(rt: &impl Print, survey: &mut Survey<D, S>) -> anyhow::Result<()> {
    survey.start(&frame(), SAMPLE)?;
    print_frame(rt, survey)?;
    let (throws, refusal) = draw_all(survey);
    println!(rt; "\n{throws} throws, then {refusal}\n")?;
    print_taken(rt, survey)?;
    print_reports(rt, survey)?;
    survey.stop();
    if let Err(fault) = survey.share(0) {
        println!(rt; "\nafter the stop, a share: {fault}")?;
    }
    Ok(())
}

fn main(rt: HostRuntime) -> anyhow::Result<()> {
    println!(&rt;
        "Eight households of two regions: a panel of 4, two from each region, with shares by persons\n"
    )?;
    let mut design = Stratified::new(rt.alloc(), Pivotal::new(rt.alloc())?)?;
    design.allot(&TAKES)?;
    let mut survey = Survey::new(rt.alloc(), design, Xorshift32::new(SEED, WORDS))?;
    run(&rt, &mut survey)
}
