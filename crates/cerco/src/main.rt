//! `cerco`: a C compiler for the MCS-51 whose running costs are exact. This is the process around the call `cerco`.
#![tactic(auto)]

use cerco_base::{HostFiles, HostOut};
use cerco_command::cerco;
use std::env;
use std::io::ErrorKind;
use std::process::ExitCode;

fn main(rt: HostRuntime) -> ExitCode {
    let mut given = match env::args(&rt) {
        Ok(words) => words,
        Err(error) if error.kind() == ErrorKind::InvalidData => return ExitCode::from(2),
        Err(_) => return ExitCode::from(9),
    };
    let _ = given.next();
    let mut words = Vec::new(rt.alloc());
    for word in given {
        if words.push(word).is_err() {
            return ExitCode::from(9);
        }
    }
    let mut files = HostFiles::new(rt.alloc(), rt);
    let mut out = HostOut::new(rt);
    ExitCode::from(cerco(rt.alloc(), &words, &mut files, &mut out))
}
