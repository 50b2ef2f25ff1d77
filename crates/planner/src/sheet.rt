// The sheet of a plan: its groups, its cards and its matrix.
ghost use Rattle.std.specs.Prelude.{◌≡◌, ◌<◌};
ghost use Rattle.matrix.specs.Numbers.{column_count, entry_at, row_count};
ghost use Rattle.plans.specs.Shape.{shape_of};

use crate::slip::Slip;
use matrix::{column_count, entry, row_count};
use plans::mask::contains;
use plans::plan::Plan;
use plans::table::Table;
use std::io;

// A matrix of more rows is not printed.
const SHOWN_ROWS: usize = 24;

// Prints the members of a group, rising.
fn print_members(rt: &HostRuntime, harbours: usize, mask: u16) -> io::Result<()> {
    for harbour in (1..=harbours).filter(|harbour| contains(mask, *harbour)) {
        print!(rt; " {harbour}")?;
    }
    println!(rt)
}

// Prints a line for each group, by number.
fn print_groups(rt: &HostRuntime, harbours: usize, masks: &[u16]) -> io::Result<()> {
    let count = masks.len();
    println!(rt; "groups: {count}")?;
    for (number, mask) in masks.iter().enumerate() {
        print!(rt; "  {number} mask {mask} harbours")?;
        print_members(rt, harbours, *mask)?;
    }
    Ok(())
}

// Prints how much of everything there is.
fn print_sizes(rt: &HostRuntime, plan: &Plan) -> io::Result<()> {
    let random = plan.random_count();
    let card = plan.card_length();
    let tray = plan.tray_length();
    println!(rt; "random elements: {random}")?;
    println!(rt; "card length: {card}, tray length: {tray}")
}

// Prints where the slips of each group with a harbour lie on its card.
fn print_card(rt: &HostRuntime, table: &Table, harbour: usize) -> io::Result<()> {
    print!(rt; "card {harbour}")?;
    let mut before = ':';
    // Kept: by number, by which a slip's contract names its group.
    for (number, _) in table.masks().iter().enumerate() {
        if let Some(slip) = Slip::of(table, number, harbour) {
            print!(rt; "{before} group {number} at {slip}")?;
            before = ',';
        }
    }
    println!(rt)
}

// Prints the card of each harbour.
fn print_cards(rt: &HostRuntime, table: &Table, harbours: usize) -> io::Result<()> {
    for harbour in 1..=harbours {
        print_card(rt, table, harbour)?;
    }
    Ok(())
}

// The entry at a row and a column of the matrix.
fn entry_inside(plan: &Plan, row: usize, column: usize) -> u8
    requires row { row < row_count (shape_of plan.now) }
    requires column { column < column_count (shape_of plan.now) }
    ensures { result ≡ entry_at (shape_of plan.now) row column }
{
    entry(plan, row, column).unwrap()
}

// Prints a row of the matrix.
fn print_row(rt: &HostRuntime, plan: &Plan, row: usize) -> io::Result<()>
    requires { row < row_count (shape_of plan.now) }
{
    print!(rt; "  ")?;
    // Kept: entries are computed by row and column, and stand in no list.
    for column in 0..column_count(plan) {
        let bit = entry_inside(plan, row, column);
        print!(rt; "{bit}")?;
    }
    println!(rt)
}

// Prints the matrix, unless it is long.
fn print_matrix(rt: &HostRuntime, plan: &Plan) -> io::Result<()> {
    let rows = row_count(plan);
    let columns = column_count(plan);
    print!(rt; "matrix: {rows} rows, {columns} columns")?;
    if rows > SHOWN_ROWS {
        return println!(rt; " (not shown)");
    }
    println!(rt)?;
    for row in 0..rows {
        print_row(rt, plan, row)?;
    }
    Ok(())
}

// Prints what a planner wants to see of a plan.
pub(crate) fn print_plan(rt: &HostRuntime, plan: &Plan) -> io::Result<()> {
    let harbours = plan.harbours();
    let table = plan.table();
    println!(rt; "plan: {plan}")?;
    print_groups(rt, harbours, table.masks())?;
    print_sizes(rt, plan)?;
    print_cards(rt, &table, harbours)?;
    print_matrix(rt, plan)?;
    println!(rt)
}
