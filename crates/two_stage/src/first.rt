ghost use Rattle.std.specs.Prelude.{◌≡◌, ◌*◌, ◌^◌, ◌<◌, length, nat_lt};
ghost use Rattle.design.specs.Faults.{Answers};
ghost use Rattle.layers.specs.Stages.{units_of, denominator_at};
ghost use Rattle.layers.specs.TwoStage.{first_refusal};
ghost use Rattle.parts.specs.Running.{all_parts, Begins};
ghost use Rattle.series.specs.Tables.{tables};
ghost use Rattle.two_stage.specs.Of.{large_product, large_refusal};
ghost use Rattle.two_stage.specs.Stands.{IsDrawing, Settles};

use crate::Stage;
use design::check::refuse_at;
use design::design::Design;
use design::fault::{Fault, Reason};
use design::row::Row;
use series::Series;
use series::table::PartTable;

/// The largest denominator that a share may have.
pub const LARGEST_DENOMINATOR: u64 = 1_000_000_000_000_000;

/// Begins the first design on the rows of the clusters, or passes its fault upward, at the first row of the cluster that it names.
pub fn begin_first<A: Design>(
    first: &mut A,
    cluster_rows: &[Row],
    table: &PartTable,
    n: u32,
) -> Result<(), Fault>
    ensures begun { Answers (first_refusal (tables table.now).bounds (A.plan first.old cluster_rows.now n)) (λ _. Begins (A.plan first.old cluster_rows.now n) (A.tree first.new)) result }
    ensures settings { A.plan first.new ≡ A.plan first.old }
{
    first
        .begin(cluster_rows, n)
        .map_err(|f| f.passed_up(table.first_row(f.row as usize)))
}

// The denominator of the cluster j in the first stage, where there is one.
fn denominator_at<A: Design>(first: &A, j: u32) -> u64
    ensures { j < units_of (A.tree first.now) → result ≡ denominator_at (A.tree first.now) j }
{
    first.share(j).map_or(0, |(_, denominator)| denominator)
}

// Whether the product of two denominators is larger than a denominator may be.
fn is_too_large(a: u64, b: u64) -> bool
    ensures { result ≡ nat_lt (10 ^ 15) (a * b) }
{
    a.checked_mul(b)
        .is_none_or(|product| product > LARGEST_DENOMINATOR)
}

// Whether the product of the denominators of the unit k is too large.
fn has_large_product<A: Design>(first: &A, table: &PartTable, k: u32) -> bool
    requires { k < length (tables table.now).rows }
    ensures { units_of (A.tree first.now) ≡ length (all_parts (tables table.now)) → result ≡ large_product (A.tree first.now) (tables table.now) k }
{
    let cluster = table.part_of(k);
    let of_cluster = denominator_at(first, cluster as u32);
    let (_, within) = table.prescribed(k as usize);
    is_too_large(of_cluster, within)
}

/// Refuses the first row whose product of denominators is too large.
pub fn check_products<A: Design>(first: &A, table: &PartTable) -> Result<(), Fault>
    ensures { units_of (A.tree first.now) ≡ length (all_parts (tables table.now)) → Answers (large_refusal (A.tree first.now) (tables table.now)) (λ _. Unit {0}) result }
{
    let large = (0..table.units()).find(|k| has_large_product(first, table, *k as u32));
    refuse_at(large, Reason::DenominatorTooLarge)
}

/// Once the first design has come to its outcome, starts the second on the clusters that it holds; answers the stage of the run.
pub fn settle<A: Design, B: Design>(first: &A, second: &mut Series<B>) -> Result<Stage, Fault>
    ensures settled { IsDrawing A.Design B.Design first.now second.old → Settles A.Design B.Design first.now second.old second.new result }
    ensures settings { B.plan second.new.below ≡ B.plan second.old.below }
{
    if first.ways() > 0 {
        return Ok(Stage::First);
    }
    second.choose(first);
    second.start()?;
    Ok(Stage::Second)
}
