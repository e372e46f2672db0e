// The layers' tables by number, and the entries' places over all of them.
ghost use Rattle.std.specs.Prelude.{◌≡◌};
ghost use Rattle.merge.specs.Tables.{table_of, place_name, IsTable};

use layers::items::Table;
use layers::search;

// The layers as a call is lent them: the upper table, no bytes where there is none, and the lower ones, one after another.
#[derive(Clone, Copy)]
pub struct Layers<'a> {
    pub upper: &'a [u8],
    pub lower: &'a [u8],
}

impl<'a> Layers<'a> {
    // The table of layer `k`, where there is such a layer.
    pub fn table(self, k: usize) -> Option<&'a Table>
        ensures { IsTable (table_of self.entry.upper.now self.entry.lower.now k) result }
    {
        if k == 0 {
            return self.upper.as_array();
        }
        if 3 < k {
            return None;
        }
        let a = 8192 * (k - 1);
        if self.lower.len() < a + 8192 {
            return None;
        }
        self.lower[a..a + 8192].as_array()
    }

    // The name at place `q` of all layers, 128 places a layer; of no layer no bytes, as `place_name` of specs/ comes to.
    pub fn place_name(self, q: u16) -> &'a [u8]
        ensures { result.now ≡ place_name self.entry.upper.now self.entry.lower.now q }
    {
        let Some(t) = self.table(usize::from(q / 128)) else {
            return &self.lower[..0];
        };
        search::name_at(t, usize::from(q % 128))
    }
}
