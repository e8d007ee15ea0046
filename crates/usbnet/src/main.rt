//! The program: the words after its name are a command over standard input and output.
#![tactic(auto)]

use std::env;
use std::io::{self, ErrorKind};
use std::process::ExitCode;
use un_io::{StdSink, StdSource};
use un_share::OpenGate;
use usbnet_run::{NO_WORDS, Refusal, usbnet_main};

fn main(rt: HostRuntime) -> ExitCode {
    let args = match env::args(&rt) {
        Ok(args) => args,
        Err(error) if error.kind() == ErrorKind::OutOfMemory => {
            return ExitCode::from(Refusal::NoMemory.status());
        }
        Err(_) => return ExitCode::from(NO_WORDS),
    };
    let mut words = Vec::new(rt.alloc());
    for word in args.skip(1) {
        if words.push(word).is_err() {
            return ExitCode::from(Refusal::NoMemory.status());
        }
    }
    let mut input = StdSource::make(rt.reader());
    let mut out = StdSink::make(io::writer(&rt));
    ExitCode::from(usbnet_main(&rt, rt.alloc(), &words, &mut input, &mut out, &OpenGate))
}
