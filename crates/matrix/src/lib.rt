// The distribution matrix of a plan, entry by entry, with the signs by which a group restores the key.
#![tactic(auto)]

ghost use Rattle.std.specs.Prelude.{◌≡◌, pos, if◌then◌else◌, nat_eq, slice_index_or};
ghost use Rattle.matrix.specs.Matrix.{columns, key, signed_sum};
ghost use Rattle.matrix.specs.Numbers.{column_count, entry_at, entry_refusal, row_count, sum_refusal, Numbered};
ghost use Rattle.matrix.specs.Restores.{ColumnsRestore};
ghost use Rattle.matrix.specs.Small.{SlipsStaySmall, SlipsOfAPlanStaySmall};
ghost use Rattle.matrix.specs.Worked.{Worked};
ghost use Rattle.plans.specs.Refusals.{Answers, Passes};
ghost use Rattle.plans.specs.Shape.{masks_of, shape_of};

use crate::labels::{column_label, marked, row_label};
use crate::sums::group_sum;
use plans::plan::Plan;
use plans::refusal::Refusal;

pub mod labels;
mod sums;

// The number of rows.
pub fn row_count(plan: &Plan) -> usize
    ensures { result ≡ row_count (shape_of plan.now) }
{
    plan.group_count() * plan.components() * plan.threshold()
}

// The number of columns.
pub fn column_count(plan: &Plan) -> usize
    ensures { result ≡ column_count (shape_of plan.now) }
{
    plan.components() + plan.random_count()
}

// That a row and a column are in the matrix.
fn inside(plan: &Plan, row: usize, column: usize) -> Result<(), Refusal>
    ensures { Passes (entry_refusal (shape_of plan.now) row column) result }
{
    if row >= row_count(plan) || column >= column_count(plan) {
        return Err(Refusal::PastTheMatrix);
    }
    Ok(())
}

// The entry at a row and a column, 0 or 1.
pub fn entry(plan: &Plan, row: usize, column: usize) -> Result<u8, Refusal>
    ensures value { Answers (entry_refusal (shape_of plan.now) row column) (λ e. e ≡ entry_at (shape_of plan.now) row column) result }
    ensures numbered { Numbered }
    ensures small { SlipsStaySmall × SlipsOfAPlanStaySmall }
{
    inside(plan, row, column)?;
    let one = marked(
        plan.threshold(),
        row_label(plan, row),
        column_label(plan, column),
    );
    Ok(u8::from(one))
}

// That there is such a group, and then that the component and the column are in the matrix.
fn summable(plan: &Plan, group: usize, component: usize, column: usize) -> Result<(), Refusal>
    ensures { Passes (sum_refusal (shape_of plan.now) group component column) result }
{
    if group >= plan.group_count() {
        return Err(Refusal::NoSuchGroup);
    }
    if component >= plan.components() || column >= column_count(plan) {
        return Err(Refusal::PastTheMatrix);
    }
    Ok(())
}

// Over the rows of a group's component, sign times entry, summed: 1 at the component's own column and 0 at every other.
pub fn signed_sum(plan: &Plan, group: usize, component: usize, column: usize) -> Result<i8, Refusal>
    ensures value { Answers (sum_refusal (shape_of plan.now) group component column) (λ s. (s ≡ signed_sum (masks_of (shape_of plan.now)) group component (slice_index_or (columns (masks_of (shape_of plan.now)) (shape_of plan.now).components) column (key 0))) × (s ≡ (if nat_eq column component then pos 1 else pos 0))) result }
    ensures restores { ColumnsRestore }
{
    summable(plan, group, component, column)?;
    let label = column_label(plan, column);
    Ok(group_sum(plan.threshold(), group, component, label))
}

// The worked cases hold of the definitions.
pub fn worked_cases()
    ensures { Worked }
{}

#[cfg(test)]
mod tests {
    use crate::{column_count, entry, row_count, signed_sum};
    use plans::plan::Plan;
    use plans::refusal::Refusal;
    use std::test::Fail;

    // A row of a matrix of four columns.
    fn line(plan: &Plan, row: usize) -> Result<[u8; 4], Refusal> {
        Ok([
            entry(plan, row, 0)?,
            entry(plan, row, 1)?,
            entry(plan, row, 2)?,
            entry(plan, row, 3)?,
        ])
    }

    #[test]
    fn two_of_two(rt: HostRuntime) -> Result<(), Fail> {
        let plan = Plan::new(2, 2, 2)?;
        assert_eq!(rt; row_count(&plan), 4);
        assert_eq!(rt; column_count(&plan), 4);
        assert!(rt; line(&plan, 0)? == [1, 0, 1, 0]);
        assert!(rt; line(&plan, 1)? == [0, 1, 0, 1]);
        assert!(rt; line(&plan, 2)? == [0, 0, 1, 0]);
        assert!(rt; line(&plan, 3)? == [0, 0, 0, 1]);
        Ok(())
    }

    #[test]
    fn past_the_matrix(rt: HostRuntime) -> Result<(), Fail> {
        let plan = Plan::new(2, 2, 2)?;
        assert_eq!(rt; entry(&plan, 4, 0).err().map(Refusal::number), Some(7));
        Ok(())
    }

    #[test]
    fn signed_sums(rt: HostRuntime) -> Result<(), Fail> {
        let plan = Plan::new(3, 3, 1)?;
        assert_eq!(rt; signed_sum(&plan, 0, 0, 0)?, 1);
        assert_eq!(rt; signed_sum(&plan, 0, 0, 2)?, 0);
        Ok(())
    }
}
