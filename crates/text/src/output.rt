// What the programs print on. It stands on the kit's `io`, not on `HostRuntime`: std's output and heap stand on C functions that were not trusted before.
ghost use Rattle.std.specs.Prelude.{◌∷◌, ◌++◌, [], OnOk};
ghost use Rattle.std.specs.Io.KnownBytes.{Appends};

use std::io::{Result, Write};

#[derive(Clone, Copy)]
pub enum Output {
    Standard,
    Error,
}

impl Output {
    fn descriptor(self) -> i32 {
        match self {
            Output::Standard => 1,
            Output::Error => 2,
        }
    }
}

impl Write for Output {
    // A write that fails is passed over: a program ends as it would have.
    fn write(&mut self, bytes: &[u8]) -> Result<usize> {
        io::write_all(self.descriptor(), bytes);
        Ok(bytes.len())
    }

    fn flush(&mut self) -> Result<()> {
        Ok(())
    }
}

// A heading: an empty line, then the line itself.
pub fn write_heading<W: Write>(out: &mut W, line: &[u8]) -> Result<()>
    ensures { OnOk result (Appends (W.contents out.old) (W.contents out.new) (10 ∷ (line.now ++ 10 ∷ []))) }
{
    out.write_all(b"\n")?;
    write_line(out, line)
}

// A line's bytes, which need not be text, and the line's end.
pub fn write_line<W: Write>(out: &mut W, line: &[u8]) -> Result<()>
    ensures { OnOk result (Appends (W.contents out.old) (W.contents out.new) (line.now ++ 10 ∷ [])) }
{
    out.write_all(line)?;
    out.write_all(b"\n")
}
