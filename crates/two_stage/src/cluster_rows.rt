ghost use Rattle.std.specs.Prelude.{◌≡◌, ◌<◌, ◌≤◌, [], length, map, IfOk};
ghost use Rattle.design.specs.Lists.{total};
ghost use Rattle.layers.specs.TwoStage.{row_for, cluster_row};
ghost use Rattle.parts.specs.Running.{all_parts};
ghost use Rattle.series.specs.Tables.{tables};

use bounded::BoundedVec;
use design::row::Row;
use series::table::PartTable;
use std::alloc::{AllocError, Global};

/// The most clusters that a list may have.
pub const MOST_CLUSTERS: usize = 128;

/// The rows of a list's clusters, on which the first design runs.
#[derive(Drop)]
pub struct ClusterRows {
    rows: BoundedVec<Row, MOST_CLUSTERS>,
}

// The total of the sizes.
fn total_of(rows: &[Row]) -> u64
    requires { length rows.now ≤ 1024 }
    ensures { result ≡ total rows.now }
{
    rows.iter().map(|row| u64::from(row.size)).sum()
}

// The row for a cluster with these rows.
fn row_of(rows: &[Row]) -> Row
    requires some { 0 < length rows.now }
    requires few { length rows.now ≤ 1024 }
    requires small { total rows.now ≤ 10240000 }
    ensures { result ≡ row_for rows.now }
{
    let size = total_of(rows) as u32;
    Row::new(rows[0].stratum, rows[0].cluster, size)
}

impl ClusterRows {
    /// No rows, and room for those of every list that is accepted.
    pub fn new(heap: Global) -> Result<Self, AllocError>
        ensures { IfOk result (λ h. h.rows ≡ []) }
    {
        let rows = BoundedVec::new(heap)?;
        Ok(ClusterRows { rows })
    }

    /// Holds the row for each part of the table.
    pub fn fill(&mut self, table: &PartTable)
        requires small { total (tables table.now).rows ≤ 10240000 }
        requires few { length (all_parts (tables table.now)) ≤ 128 }
        ensures { self.new.rows ≡ map cluster_row (all_parts (tables table.now)) }
    {
        self.rows.clear();
        // By number, as parts are cut out of the list when they are asked for, and not stored.
        for j in 0..table.count() {
            self.rows.push(row_of(table.part(j)));
        }
    }

    /// The rows, in the order of the clusters.
    pub fn as_slice(&self) -> &[Row]
        ensures { result.now ≡ self.now.rows }
    {
        self.rows.as_slice()
    }
}
