// The layers' tables, and which of them there are.
use merge::tables::Layers;
use text::encode::{self, NoSuchLine};
use text::memory;

#[derive(Drop)]
pub struct Tables {
    upper: [u8; 8192],
    lower: [u8; 24576],
    has_upper: bool,
    lowers: usize,
}

impl Tables {
    pub fn new() -> Tables {
        Tables {
            upper: [0; 8192],
            lower: [0; 24576],
            has_upper: true,
            lowers: 1,
        }
    }

    // All tables cleared; whether there is an upper layer, and how many lower ones.
    pub fn set_layers(&mut self, upper: bool, lower: usize) {
        self.upper.fill(0);
        self.lower.fill(0);
        self.has_upper = upper;
        self.lowers = lower;
    }

    // A line that fills a table goes to layer `k`, whether there is one or not.
    pub fn put_line<'a>(&mut self, k: usize, line: &'a [u8]) -> Result<(), NoSuchLine<'a>> {
        encode::put_layer_line(&mut self.upper, &mut self.lower, k, line)
    }

    // Those that there are.
    pub fn layers(&self) -> Layers<'_> {
        Layers {
            upper: memory::first(&self.upper, if self.has_upper { 8192 } else { 0 }),
            lower: memory::first(&self.lower, 8192 * self.lowers.min(3)),
        }
    }
}
