// A node's bytes handed out.
ghost use Rattle.std.specs.Prelude.{◌≡◌, ◌+◌, ◌*◌, ◌≤◌, length};
ghost use Rattle.layers.specs.Bytes.{part, laid};
ghost use Rattle.calls.specs.NodeCall.{node_answer, node_out};

use crate::lengths;
use crate::refusal::Refusal;
use merge::state;

// The 52 bytes of the node at place `k` laid over `out`.
fn lay_bytes(s: &[u8], k: usize, out: &mut [u8])
    requires { 52 * k + 64 ≤ length s.now }
    ensures { out.new ≡ laid out.old 0 (part s.now (12 + 52 * k) 52) }
{
    let a = 12 + 52 * k;
    layers::bytes::lay(out, 0, &s[a..a + 52]);
}

pub fn node(s: &[u8], x: u64, out: &mut [u8]) -> Result<usize, Refusal>
    ensures { (result ≡ node_answer s.now x out.old) × (out.new ≡ node_out s.now x out.old) }
{
    if !lengths::state_fits(s) {
        return Err(Refusal::Einval);
    }
    let k = state::find(s, x).ok_or(Refusal::Enoent)?;
    if out.len() < 52 {
        return Err(Refusal::Einval);
    }
    lay_bytes(s, k, out);
    Ok(0)
}
