// A tool for a planner of key cards: it reads plans, one a line, and prints what each comes to.
#![tactic(auto)]

use crate::request::Request;
use crate::sheet::print_plan;
use lines::answer_text;
use plans::plan::Plan;
use std::io;
use std::io::BufReader;

mod request;
mod sheet;
mod slip;

// Answers a line of the input.
fn answer(rt: &HostRuntime, number: u64, line: &str) -> io::Result<()> {
    let Some(request) = Request::read(line) else {
        return println!(rt;
            "line {number}: three numbers are wanted: harbours, threshold, components"
        );
    };
    match Plan::new(request.harbours, request.threshold, request.components) {
        Ok(plan) => print_plan(rt, &plan),
        Err(refusal) => println!(rt; "line {number}: {refusal}"),
    }
}

fn main(rt: HostRuntime) -> io::Result<()> {
    let input = BufReader::new(rt.alloc(), rt.stdin())?;
    answer_text(rt.alloc(), input, |number, line| answer(&rt, number, line))
}
