//! Walks every road of throws through small lists by each design, and prints the units that each road takes.
#![tactic(auto)]

use design::design::Design;
use design::limits::MOST_ROWS;
use design::row::Row;
use pivotal::Pivotal;
use poisson::Poisson;
use systematic::Systematic;
use throws::source::Xorshift32;
use throws::throw::throw;

// A throw and the number of its ways.
#[derive(Clone, Copy)]
struct Throw {
    d: u32,
    ways: u32,
}

// More roads than any list here has, and more throws than any road.
const MOST_ROADS: u32 = 1000;

const MOST_THROWS: u32 = 2000;

// The longest list: its sample size, the size of each row, and the generator's seed and words.
const LONG_SAMPLE: u32 = 24;

const LONG_SIZE: u32 = 9999;

const SEED: u32 = 12_345;

const WORDS: u32 = 4000;

// Throws until the run has come to its outcome; `next` gives each throw from its ways.
fn throw_to_the_end<D: Design, F: FnMut(u32) -> anyhow::Result<u32>>(
    design: &mut D,
    mut next: F,
) -> anyhow::Result<()>
    requires { F.IsAlwaysCallable next }
{
    for _ in 0..MOST_THROWS {
        let ways = design.ways();
        if ways == 0 {
            break;
        }
        design.step(next(ways)?)?;
    }
    Ok(())
}

// Takes the road again from its beginning, and goes on with throws of 0 to the outcome.
fn follow<D: Design>(
    design: &mut D,
    list: &[Row],
    n: u32,
    road: &mut Vec<Throw>,
) -> anyhow::Result<()> {
    design.begin(list, n)?;
    for throw in road.iter() {
        design.step(throw.d)?;
    }
    throw_to_the_end(design, |ways| {
        road.push(Throw { d: 0, ways })?;
        Ok(0)
    })
}

// The next road: the last throw that can be raised is, and those after it are left off. False where there is none.
fn raise(road: &mut Vec<Throw>) -> anyhow::Result<bool> {
    while let Some(last) = road.pop() {
        let d = last.d.saturating_add(1);
        if d < last.ways {
            road.push(Throw { d, ways: last.ways })?;
            return Ok(true);
        }
    }
    Ok(false)
}

fn print_units(rt: &impl Print, design: &impl Design) -> anyhow::Result<()> {
    print!(rt; " takes")?;
    for k in 0..MOST_ROWS as u32 {
        if design.taken(k) == Ok(true) {
            print!(rt; " {k}")?;
        }
    }
    println!(rt)?;
    Ok(())
}

fn print_road(rt: &impl Print, road: &[Throw]) -> anyhow::Result<()> {
    for throw in road.iter() {
        let d = throw.d;
        let ways = throw.ways;
        print!(rt; " {d}/{ways}")?;
    }
    Ok(())
}

// Every road through one list by one design.
fn walk<D: Design>(
    rt: &HostRuntime,
    name: &str,
    design: &mut D,
    list: &[Row],
    n: u32,
) -> anyhow::Result<()> {
    let mut road = Vec::new(rt.alloc());
    for _ in 0..MOST_ROADS {
        follow(design, list, n, &mut road)?;
        print!(rt; "{name}")?;
        print_road(rt, &road)?;
        print_units(rt, design)?;
        if !raise(&mut road)? {
            break;
        }
    }
    Ok(())
}

// Every road through one list, by each design.
fn walk_all(rt: &HostRuntime, list: &[Row], n: u32) -> anyhow::Result<()> {
    let rows = list.len();
    println!(rt; "{rows} rows, sample of {n}")?;
    walk(rt, "systematic", &mut Systematic::new(rt.alloc())?, list, n)?;
    walk(rt, "pivotal", &mut Pivotal::new(rt.alloc())?, list, n)?;
    walk(rt, "Poisson", &mut Poisson::new(rt.alloc())?, list, n)
}

// One draw from the longest list, by the words of the generator.
fn draw_long<D: Design>(rt: &HostRuntime, name: &str, design: &mut D) -> anyhow::Result<()> {
    let mut source = Xorshift32::new(SEED, WORDS);
    design.begin(&[Row::sized(LONG_SIZE); MOST_ROWS], LONG_SAMPLE)?;
    let mut throws = 0u32;
    throw_to_the_end(design, |ways| {
        throws = throws.saturating_add(1);
        Ok(throw(&mut source, ways)?)
    })?;
    print!(rt; "{name} {throws} throws")?;
    print_units(rt, design)
}

fn run(rt: &HostRuntime) -> anyhow::Result<()> {
    walk_all(rt, &[Row::sized(7)], 1)?;
    walk_all(rt, &[Row::sized(1), Row::sized(1)], 1)?;
    walk_all(rt, &[Row::sized(1), Row::sized(3)], 1)?;
    walk_all(rt, &[Row::sized(3), Row::sized(3)], 2)?;
    walk_all(rt, &[Row::sized(1), Row::sized(2), Row::sized(1)], 2)?;
    println!(rt; "{MOST_ROWS} rows, sample of {LONG_SAMPLE}")?;
    draw_long(rt, "systematic", &mut Systematic::new(rt.alloc())?)?;
    draw_long(rt, "pivotal", &mut Pivotal::new(rt.alloc())?)?;
    draw_long(rt, "Poisson", &mut Poisson::new(rt.alloc())?)
}

fn main(rt: HostRuntime) -> anyhow::Result<()> {
    run(&rt)
}
