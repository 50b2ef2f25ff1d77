ghost use Rattle.std.specs.Prelude.{◌≡◌, ◌≤◌, pos, ◌*ℤ◌, if◌then◌else◌};
ghost use Rattle.matrix.specs.Labels.{column_named, row_named, BlockIn};
ghost use Rattle.matrix.specs.Matrix.{marked_in};
ghost use Rattle.matrix.specs.Restores.{key_only, sum_in};
ghost use Rattle.plans.specs.Groups.{sign as sign_of};

use crate::labels::{ColumnLabel, RowLabel, marked};
use plans::sign::sign;

// Sign times entry at a row and a column, in groups of so many members.
fn signed(threshold: usize, row: RowLabel, column: ColumnLabel) -> i8
    requires { row.position ≤ threshold }
    ensures { result ≡ sign_of row.position *ℤ pos (if marked_in threshold (row_named row) (column_named column) then 1 else 0) }
{
    if marked(threshold, row, column) {
        sign(row.position)
    } else {
        0
    }
}

// Sign times entry over the rows of a group's component, summed.
pub(crate) fn group_sum(threshold: usize, group: usize, component: usize, column: ColumnLabel) -> i8
    requires some { 1 ≤ threshold }
    requires block { BlockIn threshold column }
    ensures value { result ≡ sum_in threshold threshold group component (column_named column) }
    ensures restores { result ≡ key_only component (column_named column) }
{
    let mut sum = 0i8;
    // Kept: of a sum of signed numbers the library does not show that it fits.
    for position in 1..=threshold {
        let row = RowLabel {
            group,
            position,
            component,
        };
        sum += signed(threshold, row, column);
    }
    sum
}
