ghost use Rattle.std.specs.Prelude.{◌≡◌, ◌+◌, ◌*◌, ◌<◌, ◌≤◌};
ghost use Rattle.matrix.specs.Labels.{column_named, row_named, ColumnAt, RowAt};
ghost use Rattle.matrix.specs.Matrix.{marked_in};
ghost use Rattle.plans.specs.Shape.{shape_of};

use plans::plan::Plan;

// Which slip a row of the matrix makes.
#[derive(Clone, Copy, PartialEq, Eq, Debug)]
pub struct RowLabel {
    pub group: usize,
    // From 1, by rising harbour.
    pub position: usize,
    pub component: usize,
}

// Which input stands at a column: a component of the key, or of a random block of a group.
#[derive(Clone, Copy, PartialEq, Eq, Debug)]
pub enum ColumnLabel {
    Key(usize),
    Block {
        group: usize,
        block: usize,
        component: usize,
    },
}

// A number divided by another, and what is left.
fn divided(number: usize, by: usize) -> (usize, usize)
    requires { 0 < by }
    ensures whole { number ≡ result.0 * by + result.1 }
    ensures rest { result.1 < by }
{
    (number / by, number % by)
}

// The label of a row by its number.
pub(crate) fn row_label(plan: &Plan, row: usize) -> RowLabel
    ensures { RowAt (shape_of plan.now) row result }
{
    let (slip, component) = divided(row, plan.components());
    let (group, before) = divided(slip, plan.threshold());
    RowLabel {
        group,
        position: before + 1,
        component,
    }
}

// The label of a column by its number. Past the key there are columns only where groups have blocks.
pub(crate) fn column_label(plan: &Plan, column: usize) -> ColumnLabel
    requires { (shape_of plan.now).components ≤ column → 2 ≤ (shape_of plan.now).threshold }
    ensures { ColumnAt (shape_of plan.now) column result }
{
    let k = plan.components();
    if column < k {
        return ColumnLabel::Key(column);
    }
    let (slip, component) = divided(column - k, k);
    let (group, block) = divided(slip, plan.threshold() - 1);
    ColumnLabel::Block {
        group,
        block,
        component,
    }
}

// Whether the entry at a row and a column is 1, in groups of so many members.
pub(crate) fn marked(threshold: usize, row: RowLabel, column: ColumnLabel) -> bool
    requires { row.position ≤ threshold }
    ensures { result ≡ marked_in threshold (row_named row) (column_named column) }
{
    match column {
        ColumnLabel::Key(component) => row.position == 1 && row.component == component,
        ColumnLabel::Block {
            group,
            block,
            component,
        } => {
            (row.position == 1 || block == threshold - row.position)
                && row.group == group
                && row.component == component
        }
    }
}
