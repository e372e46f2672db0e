// Turns a layer's table as text into its 8192 bytes. No line, no byte.
#![tactic(auto)]

use std::io::Write;
use text::encode::{self, NoSuchLine};
use text::output::Output;
use text::words;

// Puts every line, up to the first that is none.
fn put_all<'a>(script: &'a [u8], t: &mut [u8]) -> Result<(), NoSuchLine<'a>> {
    for line in script.split(|b| *b == b'\n') {
        if !words::is_silent(line) {
            encode::put_line(t, line)?;
        }
    }
    Ok(())
}

// A line that is none is told on standard error, and then no table is written.
fn run(script: &[u8]) -> std::io::Result<()> {
    let mut t = [0; 8192];
    match put_all(script, &mut t) {
        Ok(()) => Output::Standard.write_all(&t),
        Err(error) => {
            let mut out = Output::Error;
            out.write_all(b"encode: ")?;
            error.write_to(&mut out)
        }
    }
}

// It reads by the kit's crate `io`, for the reason in text's output.rt.
fn main() {
    let mut script = io::large_buffer();
    let n = io::read_full(0, &mut script);
    if n != 0 {
        let _ = run(&script[..n]);
    }
}
