//! Parametric integer programming on the command line: standard input in, standard output out, the refusals' lines on
//! standard error.
#![tactic(auto)]

use pip_cli::{pip_main, refuse_words};
use pip_outside::{StdSink, StdSource};
use std::alloc::{AllocError, Global};
use std::env;
use std::env::{Env, FillError};
use std::io::ErrorKind;
use std::process::ExitCode;

// The words and variables that the program is called with, but for its name, which is left empty: nothing looks at it,
// so it may be anything.
#[derive(Drop)]
struct Unnamed<'r> {
    rt: &'r HostRuntime,
}

impl Env for Unnamed<'_> {
    fn arg(&self, i: usize, buf: &mut [u8]) -> Result<usize, FillError> {
        match self.rt.arg(i, buf) {
            Ok(_) if i == 0 => Ok(0),
            Err(FillError::TooLong) if i == 0 => Ok(0),
            other => other,
        }
    }

    fn var(&self, name: &str, buf: &mut [u8]) -> Result<usize, FillError> {
        self.rt.var(name, buf)
    }

    fn var_at(&self, i: usize, buf: &mut [u8]) -> Result<usize, FillError> {
        self.rt.var_at(i, buf)
    }
}

// The words of the command line; none of them where one, the program's name apart, is no UTF-8.
fn words_of(alloc: Global, rt: &HostRuntime) -> Result<Vec<String>, AllocError> {
    match env::args(&(Unnamed { rt }, alloc)) {
        Ok(words) => Ok(words.collect(alloc)?),
        Err(error) if error.kind() == ErrorKind::OutOfMemory => Err(AllocError),
        Err(_) => Ok(Vec::new(alloc)),
    }
}

fn main(rt: HostRuntime) -> ExitCode {
    let alloc = rt.alloc();
    let mut notes = StdSink::new(rt.stderr());
    let status = match words_of(alloc, &rt) {
        Ok(words) => {
            let mut source = StdSource::new(rt.stdin());
            let mut sink = StdSink::new(rt.stdout());
            pip_main(alloc, &words, &mut source, &mut sink, &mut notes)
        }
        Err(_) => refuse_words(&mut notes),
    };
    ExitCode::from(status)
}
