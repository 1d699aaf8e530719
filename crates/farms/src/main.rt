//! Draws samples of a county's farms by each design, and prints the list, each farm's share, the throws, and the farms taken.
#![tactic(auto)]

mod county;

use county::{FARMS, rows};
use design::design::Design;
use pivotal::Pivotal;
use poisson::Poisson;
use systematic::Systematic;
use throws::source::Xorshift32;
use throws::throw::throw;

const SAMPLE: u32 = 3;

const SEED: u32 = 1949;

const WORDS: u32 = 64;

// Begins a run on the farms and throws until it has come to its outcome; prints the throws, each with its ways.
fn draw<D: Design>(rt: &impl Print, name: &str, design: &mut D) -> anyhow::Result<()> {
    let mut source = Xorshift32::new(SEED, WORDS);
    design.begin(&rows(), SAMPLE)?;
    print!(rt; "{name:<12}")?;
    // As in `roads`: no crate lies below both programs, and a library's call would need a promise for their sake alone. The loop counts
    // its turns, since nothing else shows that it ends.
    for _ in 0..WORDS {
        let ways = design.ways();
        if ways == 0 {
            break;
        }
        let d = throw(&mut source, ways)?;
        print!(rt; " {d}/{ways}")?;
        design.step(d)?;
    }
    println!(rt)?;
    Ok(())
}

fn mark(taken: bool) -> &'static str {
    if taken { "taken" } else { "-" }
}

// The list with each farm's prescribed share, which is the one that share answers directly after begin, and who takes it.
fn print_list<A: Design, B: Design, C: Design>(
    rt: &impl Print,
    fresh: &impl Design,
    a: &A,
    b: &B,
    c: &C,
) -> anyhow::Result<()> {
    println!(rt; "unit  farm          hectares     share  systematic  pivotal  Poisson")?;
    for (i, farm) in FARMS.iter().enumerate() {
        let k = i as u32;
        let (part, whole) = fresh.share(k)?;
        let name = farm.name;
        let hectares = farm.hectares;
        print!(rt; "{k:>4}  {name:<12}  {hectares:>8}  {part:>3}/{whole}")?;
        let by_a = mark(a.taken(k)?);
        let by_b = mark(b.taken(k)?);
        let by_c = mark(c.taken(k)?);
        println!(rt; "  {by_a:>10}  {by_b:>7}  {by_c:>7}")?;
    }
    Ok(())
}

fn run(rt: &HostRuntime) -> anyhow::Result<()> {
    let mut fresh = Systematic::new(rt.alloc())?;
    let mut systematic = Systematic::new(rt.alloc())?;
    let mut pivotal = Pivotal::new(rt.alloc())?;
    let mut poisson = Poisson::new(rt.alloc())?;
    println!(rt;
        "Ten farms from north to south: samples of {SAMPLE} by three designs, with shares by size\n"
    )?;
    println!(rt; "design       throws, each with its ways")?;
    draw(rt, "systematic", &mut systematic)?;
    draw(rt, "pivotal", &mut pivotal)?;
    draw(rt, "Poisson", &mut poisson)?;
    println!(rt)?;
    fresh.begin(&rows(), SAMPLE)?;
    print_list(rt, &fresh, &systematic, &pivotal, &poisson)
}

fn main(rt: HostRuntime) -> anyhow::Result<()> {
    run(&rt)
}
