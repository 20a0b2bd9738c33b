//! Tries whole calls in memory; only safety.
//!
//! The program `cases` runs the cases of the files that its words name, one call of the studio for
//! each, and prints a line for each case. Of it only safety is proved.
//!
//! A case says what the shelf has, the words of the call, and the status and the text that are
//! wanted. The format is in docs/CASES.md. If a case fails or a file has a fault, more lines come.
//! So the output is the wanted one only if each case is as wanted.
//!
//! Modules: `line`, the lines of case files; `content`, bytes that lines write; `case`, a case and
//! its call; `desk`, which does one line after another; `report`, what is printed; `fault`.
#![tactic(auto)]

mod case;
mod content;
mod desk;
mod fault;
mod line;
mod report;

use crate::desk::Desk;
use crate::fault::Stop;
use std::alloc::Global;
use std::rt::{Env, Files};
use std::{env, fs, io};

/// Runs the cases of a file and gives how many there were.
fn run_file<R: Files + Print + Alloc<A = Global>>(rt: &R, name: &str) -> io::Result<u64> {
    let text = fs::read_to_string(rt, name)?;
    let mut desk = Desk::new(rt.alloc());
    let mut number = 0u64;
    for line in text.lines() {
        number = number.saturating_add(1);
        match desk.take(rt, line) {
            Ok(()) => {}
            Err(stop) => return report_stop(rt, name, number, stop, desk.count()),
        }
    }
    match desk.close(rt) {
        Ok(()) => Ok(desk.count()),
        Err(stop) => report_stop(rt, name, number, stop, desk.count()),
    }
}

/// Prints the fault of a line and gives the count, or the error of which no line is the cause.
fn report_stop<R: Print>(
    rt: &R,
    name: &str,
    number: u64,
    stop: Stop,
    count: u64,
) -> io::Result<u64> {
    match stop {
        Stop::Fault(fault) => {
            println!(rt; "{name} line {number}: {fault}")?;
            Ok(count)
        }
        Stop::Outside(error) => Err(error),
    }
}

fn run<R: Files + Print + Env + Alloc<A = Global>>(rt: &R) -> io::Result<()> {
    let mut total = 0u64;
    for name in env::args(rt)?.skip(1) {
        let count = run_file(rt, name.as_str())?;
        println!(rt; "{name}: {count} cases")?;
        total = total.saturating_add(count);
    }
    println!(rt; "{total} cases")
}

fn main(rt: HostRuntime) -> io::Result<()> {
    run(&rt)
}
