//! The program over real files and outputs; only safety.
//!
//! The words of `pns` call the studio over the files of the system, the standard input, the
//! standard output and the standard error. Of it only safety is proved.
//!
//! Modules: `watch`, who watches a search; `line`, the line that says how far it is.
#![tactic(auto)]

mod line;
mod watch;

use crate::watch::LineWatch;
use std::alloc::Global;
use std::env;
use std::io::ErrorKind;
use std::process::ExitCode;
use std::rt::Env;
use studio::{FileShelf, OutSink, Outputs, Status, code_of, studio};

/// The number with which the program ends if its words cannot be gathered, and memory did not run
/// out. No call of the studio ends so.
const NO_WORDS: u8 = 20;

/// A word has fewer bytes.
const WORD_LIMIT: usize = 4_294_967_295;

// The words after the program's name, or the number with which the program ends.
fn words_of<R: Env + Alloc<A = Global>>(rt: &R) -> Result<Vec<String>, u8> {
    let args = match env::args(rt) {
        Ok(args) => args,
        Err(error) if error.kind() == ErrorKind::OutOfMemory => return Err(code_of(Status::Memory)),
        Err(_) => return Err(NO_WORDS),
    };
    let mut words = Vec::new(rt.alloc());
    for word in args.skip(1) {
        if word.len() >= WORD_LIMIT {
            return Err(NO_WORDS);
        }
        if words.push(word).is_err() {
            return Err(code_of(Status::Memory));
        }
    }
    Ok(words)
}

fn main(rt: HostRuntime) -> ExitCode {
    let words = match words_of(&rt) {
        Ok(words) => words,
        Err(code) => return ExitCode::from(code),
    };
    let mut shelf = FileShelf::new(&rt, rt.stdin());
    let errors = rt.stderr();
    let mut out = Outputs::new(OutSink::new(&rt), OutSink::new(&errors));
    let progress = rt.stderr();
    let watch = LineWatch::new(&rt, &progress);
    let status = studio(rt.alloc(), &words, &mut shelf, &mut out, watch);
    ExitCode::from(code_of(status))
}
