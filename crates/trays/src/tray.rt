ghost use Rattle.std.specs.Prelude.{◌≡◌, length};
ghost use Rattle.sharing.specs.Calls.{tray_length};
ghost use Rattle.sharing.specs.Threshold.{scheme_of};

use plans::table::Table;

// A whole tray, with the table of its plan.
#[derive(Drop)]
pub(crate) struct Tray<'a, E> {
    pub(crate) table: &'a Table,
    pub(crate) slips: &'a [E],
    ghost long: { length slips.now ≡ tray_length (scheme_of table.now.plan) },
}

mod restore;
