ghost use Rattle.std.specs.Prelude.{◌≡◌, ◌-◌, ◌*◌, ◌≤◌, ◌++◌, length, take, replicate};
ghost use Rattle.plans.specs.Binomial.{choose};
ghost use Rattle.plans.specs.Groups.{groups};
ghost use Rattle.plans.specs.Shape.{group_count, masks_of, shape_of};
ghost use Rattle.plans.specs.Triangle.{IsRow, IsTriangle};

use crate::binomial::binomial;
use crate::plan::Plan;
use crate::table::Table;

// Writes the masks of so many harbours with so many bits, rising, and answers how many they are.
fn fill_masks(harbours: usize, threshold: usize, masks: &mut [u16]) -> usize
    requires few { harbours ≤ 10 }
    requires clear { masks.old ≡ replicate 252 0 }
    ensures count { result ≡ choose harbours threshold }
    ensures few { result ≤ 252 }
    ensures listed { masks.new ≡ groups harbours threshold ++ replicate (252 - result) 0 }
{
    let mut count = 0;
    let groups = (0..1u16 << harbours).filter(|mask| mask.count_ones() as usize == threshold);
    // Kept: after a zip with iter_mut a proof knows nothing of what was written, so a mask is written at its number.
    for (number, mask) in groups.enumerate() {
        masks[number] = mask;
        count = number + 1;
    }
    count
}

// Writes a row of the binomial triangle.
fn fill_row(n: usize, row: &mut [u16; 11])
    requires { n ≤ 10 }
    ensures { IsRow 11 n row.new }
{
    for (r, place) in row.iter_mut().enumerate() {
        *place = binomial(n, r) as u16;
    }
}

// Writes the first rows of the binomial triangle.
// Kept: a loop over the rows of a plan, since array::from_fn would make all ten, and the recursion for ten harbours takes longer than all the rest of a small deal.
fn fill_rows(count: usize, rows: &mut [[u16; 11]; 10])
    requires { count ≤ 10 }
    ensures { IsTriangle count 11 rows.new }
{
    for n in 0..count {
        fill_row(n, &mut rows[n]);
    }
}

impl Plan {
    // The table of this plan's groups: all masks below 2^T with just t bits, by rising mask, and 0 behind them.
    // Inlined, so that it is made where the caller keeps it and is not copied there.
    #[inline(always)]
    pub fn table(&self) -> Table
        ensures plan { shape_of result.plan ≡ shape_of self.now }
        ensures count { result.count ≡ group_count (shape_of self.now) }
        ensures masks { result.masks ≡ masks_of (shape_of self.now) ++ replicate (252 - group_count (shape_of self.now)) 0 }
    {
        let mut masks = [0u16; 252];
        let mut binomials = [[0u16; 11]; 10];
        let count = fill_masks(self.harbours(), self.threshold(), &mut masks);
        fill_rows(self.harbours(), &mut binomials);
        Table {
            plan: *self,
            masks,
            count,
            binomials,
        }
    }
}
