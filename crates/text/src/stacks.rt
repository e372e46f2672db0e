// Stacks of records printed.
ghost use Rattle.std.specs.Prelude.{Some};
ghost use Rattle.text.specs.Stacks.{stack_text};

use merge::stacks::Pair;
use std::fmt;

// A stack, topmost first, each record as layer and number.
#[derive(Clone, Copy)]
pub struct Stack<'a>(pub &'a [Pair]);

impl fmt::Display for Stack<'_> {
    ghost output = { λ s. Some (stack_text s.0.now) };

    fn fmt<W: fmt::Write>(&self, f: &mut fmt::Formatter<W>) -> fmt::Result {
        write!(f, "stack")?;
        for pair in self.0 {
            write!(f, " {}:{}", pair.layer, pair.number)?;
        }
        Ok(())
    }
}
