//! Rows that surely lie on no loop: numbers given to the rows show it where no row leads to a lower one.

ghost use Rattle.std.specs.Prelude.{◌≡◌, ◌≤◌, ◌<◌, ℕ, length, All};
ghost use Rattle.aadl_loops.specs.Loops.{IsOnLoop};
ghost use Rattle.aadl_loops.specs.Labels.{label_at};

use hw_text::Rows;

/// The first row that may lie on a loop.
pub fn free_before(edges: &[Rows<usize>], labels: &[usize]) -> usize
    ensures free { (k : ℕ) → k < result → IsOnLoop edges.now k → ⊥ }
    ensures within { result ≤ length edges.now }
{
    let mut free = edges.len();
    for (row, leads) in edges.iter().enumerate() {
        let own = label_at(labels, row);
        let lowest = lowest(leads.rows(), labels);
        if lowest < own {
            return 0;
        }
        if lowest == own && row < free {
            free = row;
        }
    }
    free
}

/// The lowest label of these rows, or the highest that there may be.
fn lowest(rows: &[usize], labels: &[usize]) -> usize
    ensures { All (λ row. result ≤ label_at labels.now row) rows.now }
{
    let mut lowest = usize::MAX;
    for &row in rows {
        lowest = lowest.min(label_at(labels, row));
    }
    lowest
}

/// The label of a row; of one that has none, the highest that there may be.
pub fn label_at(labels: &[usize], row: usize) -> usize
    ensures { result ≡ label_at labels.now row }
{
    match labels.get(row) {
        Some(&label) => label,
        None => usize::MAX,
    }
}
