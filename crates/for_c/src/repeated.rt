// Runs of a design, repeated so that they can be timed.
use design::design::Design;
use design::row::Row;
use survey::survey::Survey;
use throws::source::Source;
use throws::throw::throw;
use totals::money::Money;
use totals::total::Total;

// More than the throws of any design on a list of the most rows.
const MOST_THROWS: u32 = 4096;

/// Begins a design so many times, and answers the sum of the ways of its first throws.
pub fn begin_often<D: Design>(design: &mut D, list: &[Row], n: u32, times: u32) -> u64 {
    let mut sum: u64 = 0;
    for _ in 0..times {
        if design.begin(list, n).is_ok() {
            sum = sum.wrapping_add(u64::from(design.ways()));
        }
    }
    sum
}

// Throws until the run has come to its outcome.
fn draw_out<D: Design, S: Source>(design: &mut D, source: &mut S) {
    for _ in 0..MOST_THROWS {
        let ways = design.ways();
        if ways == 0 {
            return;
        }
        if let Ok(d) = throw(source, ways) {
            let _ = design.step(d);
        }
    }
}

// The sum of the numbers of the units taken, each counted from 1.
fn sum_taken<D: Design>(design: &D, units: u32) -> u64 {
    let mut sum: u64 = 0;
    for k in 0..units {
        if design.taken(k) == Ok(true) {
            sum = sum.wrapping_add(u64::from(k) + 1);
        }
    }
    sum
}

/// Draws a sample so many times, each from its begin on, and answers the sum of the numbers of the units taken.
pub fn draw_often<D: Design, S: Source>(
    design: &mut D,
    source: &mut S,
    list: &[Row],
    n: u32,
    times: u32,
) -> u64 {
    let mut sum: u64 = 0;
    for _ in 0..times {
        if design.begin(list, n).is_ok() {
            draw_out(design, source);
            sum = sum.wrapping_add(sum_taken(design, list.len() as u32));
        }
    }
    sum
}

/// Reports amounts of a survey that has come to its outcome so many times, and answers the sum of the reports.
pub fn report_often<D: Design, S: Source>(
    survey: &Survey<D, S>,
    amounts: &[i32],
    times: u32,
) -> i64 {
    let mut total = Money::new();
    let mut sum: i64 = 0;
    for _ in 0..times {
        if survey.report(amounts, &mut total).is_ok() {
            sum = sum.wrapping_add(total.entry(0).unwrap_or(0));
        }
    }
    sum
}

/// Starts a survey and draws until it refuses.
pub fn start_and_draw<D: Design, S: Source>(survey: &mut Survey<D, S>, list: &[Row], n: u32) {
    if survey.start(list, n).is_err() {
        return;
    }
    for _ in 0..MOST_THROWS {
        if survey.draw().is_err() {
            return;
        }
    }
}
