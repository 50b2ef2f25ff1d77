ghost use Rattle.std.specs.Prelude.{◌≡◌, length};
ghost use Rattle.sharing.specs.Calls.{random_count};
ghost use Rattle.sharing.specs.Threshold.{scheme_of};
ghost use Rattle.trays.specs.Laying.{OfSize};

use plans::table::Table;

// What a tray is laid from: the table of its plan, the key, or none for the all-zero key, and the random elements.
#[derive(Drop)]
pub(crate) struct Dealing<'t, 'a, E> {
    pub(crate) table: &'t Table,
    pub(crate) key: Option<&'a [E]>,
    pub(crate) random: &'a [E],
    ghost sized: { OfSize key table.now.plan.components },
    ghost enough: { length random.now ≡ random_count (scheme_of table.now.plan) },
}

mod lay;
mod source;
