//! The program: hands its words, standard input and standard output to the top call.
#![tactic(auto)]

mod hint;

use hint::stop_of;
use std::env;
use std::process::ExitCode;
use tn_io::{StdSink, StdSource};
use tn_run::{Request, request_of, run_to_exit};

/// The exit status where the system doesn't give the words.
const NO_WORDS: u8 = 7;

fn main(rt: HostRuntime) -> ExitCode {
    let Ok(args) = env::args(&rt) else {
        return ExitCode::from(NO_WORDS);
    };
    let Ok(words) = args.skip(1).collect::<Vec<String>>(rt.alloc()) else {
        return ExitCode::from(NO_WORDS);
    };
    let mut source = StdSource::new(rt.stdin());
    let mut sink = StdSink::new(rt.stdout());
    let ended = run_to_exit(rt.alloc(), words.as_slice(), &mut source, &mut sink);
    if matches!(request_of(words.as_slice()), Request::Usage) {
        // (where that can't be written, the answer has said it)
        let _ = eprintln!(rt;
            "market: {}\nmarket: all commands stand in market --help",
            stop_of(words.as_slice())
        );
    }
    ended
}
