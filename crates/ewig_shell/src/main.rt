//! The shell: reads commands line by line from standard input, and replies to each on standard output.
#![tactic(auto)]

ghost use Rattle.std.specs.Prelude.{◌≡◌, drop};
ghost use Rattle.std.specs.Result.{IfErr};
ghost use Rattle.ewig_shell.specs.Run.{IsEarly};

mod chained;
mod execute;
mod laws;
mod load;
mod mapped;
mod page;
mod reply;
mod run;
mod save;
mod session;
mod store_fault;
#[cfg(test)]
mod tests;
mod work;
mod worked;

use run::{Ended, Status, exit_code_of, run};
use shell_io::{DirStore, StdSink, StdSource};
use std::process::ExitCode;
use std::{env, io};

const USAGE: &str = "usage: ewig [--bits W] [--open F] [--work SEED --count N]";

fn main(rt: HostRuntime) -> ExitCode {
    let ended = match words(&rt) {
        Ok(words) => run(
            rt.alloc(),
            &words,
            &mut StdSource::new(rt.stdin()),
            &mut StdSink::new(rt.stdout()),
            &mut DirStore::new(&rt),
        ),
        Err(status) => Ended {
            status,
            space: None,
        },
    };
    if let Some(reason) = reason_of(ended.status) {
        // Nobody is left to be told of a failure.
        let _ = rt.eprintln(reason);
    }
    ExitCode::from(exit_code_of(ended.status))
}

// What standard error is told of a run that ended so: one line for each status but 0.
fn reason_of(status: Status) -> Option<&'static str> {
    match status {
        Status::Done => None,
        Status::Memory => Some("ewig: memory ran out before the first line"),
        Status::Usage => Some(USAGE),
        Status::ReadFault => Some("ewig: standard input failed"),
        Status::WriteFault => Some("ewig: standard output failed"),
        Status::TooLong => Some("ewig: the input has more than 1,099,511,627,776 bytes"),
    }
}

// The words after the program's name; the host tells which they are, and no clause can. A word that is no text can't be read, and
// so is a fault of usage.
fn words(rt: &HostRuntime) -> Result<Vec<String>, Status>
    ensures { IfErr result IsEarly }
{
    let told = match env::args(rt) {
        Ok(told) => told,
        Err(error) if error.kind() == io::ErrorKind::OutOfMemory => return Err(Status::Memory),
        Err(_) => return Err(Status::Usage),
    };
    match told.collect(rt.alloc()) {
        Ok(words) => Ok(behind_name(words)),
        Err(_) => Err(Status::Memory),
    }
}

// The words behind the first, which is the program's name.
fn behind_name(mut words: Vec<String>) -> Vec<String>
    ensures { result.items ≡ drop 1 words.items }
{
    if !words.is_empty() {
        words.remove(0);
    }
    words
}
