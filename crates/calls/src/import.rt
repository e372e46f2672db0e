// Import: the layers tested, and a state that holds the loaded root.
ghost use Rattle.std.specs.Prelude.{◌≡◌, Ok};
ghost use Rattle.merge.specs.Tables.{table_of};
ghost use Rattle.calls.specs.Refusal.{after_tests};
ghost use Rattle.calls.specs.Import.{no_layer, broken_layer, import_tests, wiped, root_node, rooted, import_spec};

use crate::refusal::Refusal;
use crate::{lengths, parent};
use merge::head::Head;
use merge::node::Node;
use merge::tables::Layers;
use merge::{change, head, node, stacks};

// ---- the layers

fn no_layer(ls: Layers<'_>) -> bool
    ensures { result ≡ no_layer ls.entry.upper.now ls.entry.lower.now }
{
    ls.upper.is_empty() && ls.lower.is_empty()
}

fn is_broken(ls: Layers<'_>, k: usize) -> bool
    ensures { result ≡ broken_layer (table_of ls.entry.upper.now ls.entry.lower.now k) }
{
    let Some(t) = ls.table(k) else {
        return false;
    };
    !layers::rules::valid(t)
}

// The tests before the load.
fn import_tests(s: &[u8], ls: Layers<'_>) -> Result<usize, Refusal>
    ensures { result ≡ after_tests (import_tests ls.entry.upper.now ls.entry.lower.now s.now) (Ok 0) }
{
    if !lengths::lengths_fit(s, ls) {
        return Err(Refusal::Einval);
    }
    if no_layer(ls) {
        return Err(Refusal::Einval);
    }
    for k in 0..4 {
        if is_broken(ls, k) {
            return Err(Refusal::Einval);
        }
    }
    Ok(0)
}

// ---- the state

// A state of 13324 bytes all zeros; one of another length stays.
fn wipe(s: &mut [u8])
    ensures { s.new ≡ wiped s.old }
{
    if lengths::state_fits(s) {
        s.fill(0);
    }
}

fn root_node(ls: Layers<'_>) -> Node
    ensures { result ≡ root_node ls.entry.upper.now ls.entry.lower.now }
{
    let st = stacks::root_stack(ls);
    let stack = st.pairs;
    Node {
        number: 1,
        count: 2,
        depth: st.length as u8,
        stack,
        ..node::no_node()
    }
}

// The root alone, not loaded yet.
fn put_root(s: &mut [u8], ls: Layers<'_>)
    ensures { s.new ≡ rooted ls.entry.upper.now ls.entry.lower.now (wiped s.old) }
{
    wipe(s);
    let h = Head { next: 2, count: 0 };
    head::put_head(s, h);
    change::put_in(s, root_node(ls));
}

pub fn import(s: &mut [u8], ls: Layers<'_>) -> Result<usize, Refusal>
    ensures { (result ≡ (import_spec ls.entry.upper.now ls.entry.lower.now s.old).answer) × (s.new ≡ (import_spec ls.entry.upper.now ls.entry.lower.now s.old).state) }
{
    match import_tests(s, ls) {
        Ok(_) => put_root(s, ls),
        Err(r) => {
            wipe(s);
            return Err(r);
        }
    }
    match parent::load_at(s, ls, 0) {
        Ok(k) => Ok(k),
        Err(r) => {
            wipe(s);
            Err(r)
        }
    }
}
