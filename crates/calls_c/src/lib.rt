// The exported C functions: a slice is a pointer and then a length. Each calls the function of its name in `calls::face`, which stands in a crate of its
// own, as a crate is a library or a static library, never both.
#![tactic(auto)]

ghost use Rattle.std.specs.Prelude.{◌≡◌};
ghost use Rattle.calls.specs.Refusal.{errno_of, packed};
ghost use Rattle.calls.specs.Import.{import_spec};
ghost use Rattle.calls.specs.Lookup.{lookup_spec};
ghost use Rattle.calls.specs.Count.{count_spec};
ghost use Rattle.calls.specs.Creation.{create_spec, mknod_spec, symlink_spec};
ghost use Rattle.calls.specs.Link.{link_spec};
ghost use Rattle.calls.specs.CopyUp.{copy_up_spec};
ghost use Rattle.calls.specs.Listing.{list_spec};
ghost use Rattle.calls.specs.Forget.{forget_call};
ghost use Rattle.calls.specs.NodeCall.{node_answer, node_out};

use calls::face;

#[unsafe(no_mangle)]
pub extern "C" fn overlay_import<'a>(state: &mut [u8], upper: &'a [u8], lower: &'a [u8]) -> u32
    ensures { (result ≡ errno_of (import_spec upper.now lower.now state.old).answer) × (state.new ≡ (import_spec upper.now lower.now state.old).state) }
{
    face::overlay_import(state, upper, lower)
}

#[unsafe(no_mangle)]
pub extern "C" fn overlay_lookup<'a>(
    state: &mut [u8],
    upper: &'a [u8],
    lower: &'a [u8],
    parent: u64,
    name: &[u8],
) -> u64
    ensures { (result ≡ packed (lookup_spec upper.now lower.now state.old parent name.now).answer) × (state.new ≡ (lookup_spec upper.now lower.now state.old parent name.now).state) }
{
    face::overlay_lookup(state, upper, lower, parent, name)
}

#[unsafe(no_mangle)]
pub extern "C" fn overlay_count<'a>(
    state: &mut [u8],
    upper: &'a [u8],
    lower: &'a [u8],
    node: u64,
) -> u64
    ensures { (result ≡ packed (count_spec upper.now lower.now state.old node).answer) × (state.new ≡ (count_spec upper.now lower.now state.old node).state) }
{
    face::overlay_count(state, upper, lower, node)
}

#[unsafe(no_mangle)]
pub extern "C" fn overlay_mknod(
    state: &mut [u8],
    upper: &mut [u8],
    lower: &[u8],
    parent: u64,
    name: &[u8],
    kind: u32,
    permissions: u32,
    umask: u32,
    device: u64,
) -> u64
    ensures { (result ≡ packed (mknod_spec upper.old lower.now state.old parent name.now kind permissions umask device).answer) × (state.new ≡ (mknod_spec upper.old lower.now state.old parent name.now kind permissions umask device).state) × (upper.new ≡ (mknod_spec upper.old lower.now state.old parent name.now kind permissions umask device).upper) }
{
    face::overlay_mknod(
        state,
        upper,
        lower,
        parent,
        name,
        kind,
        permissions,
        umask,
        device,
    )
}

#[unsafe(no_mangle)]
pub extern "C" fn overlay_create(
    state: &mut [u8],
    upper: &mut [u8],
    lower: &[u8],
    parent: u64,
    name: &[u8],
    permissions: u32,
    umask: u32,
) -> u64
    ensures { (result ≡ packed (create_spec upper.old lower.now state.old parent name.now permissions umask).answer) × (state.new ≡ (create_spec upper.old lower.now state.old parent name.now permissions umask).state) × (upper.new ≡ (create_spec upper.old lower.now state.old parent name.now permissions umask).upper) }
{
    face::overlay_create(state, upper, lower, parent, name, permissions, umask)
}

#[unsafe(no_mangle)]
pub extern "C" fn overlay_symlink(
    state: &mut [u8],
    upper: &mut [u8],
    lower: &[u8],
    parent: u64,
    name: &[u8],
    content: u64,
) -> u64
    ensures { (result ≡ packed (symlink_spec upper.old lower.now state.old parent name.now content).answer) × (state.new ≡ (symlink_spec upper.old lower.now state.old parent name.now content).state) × (upper.new ≡ (symlink_spec upper.old lower.now state.old parent name.now content).upper) }
{
    face::overlay_symlink(state, upper, lower, parent, name, content)
}

#[unsafe(no_mangle)]
pub extern "C" fn overlay_link(
    state: &mut [u8],
    upper: &mut [u8],
    lower: &[u8],
    source: u64,
    parent: u64,
    name: &[u8],
) -> u64
    ensures { (result ≡ packed (link_spec upper.old lower.now state.old source parent name.now).answer) × (state.new ≡ (link_spec upper.old lower.now state.old source parent name.now).state) × (upper.new ≡ (link_spec upper.old lower.now state.old source parent name.now).upper) }
{
    face::overlay_link(state, upper, lower, source, parent, name)
}

#[unsafe(no_mangle)]
pub extern "C" fn overlay_copy_up(
    state: &mut [u8],
    upper: &mut [u8],
    lower: &[u8],
    node: u64,
) -> u32
    ensures { (result ≡ errno_of (copy_up_spec upper.old lower.now state.old node).answer) × (state.new ≡ (copy_up_spec upper.old lower.now state.old node).state) × (upper.new ≡ (copy_up_spec upper.old lower.now state.old node).upper) }
{
    face::overlay_copy_up(state, upper, lower, node)
}

#[unsafe(no_mangle)]
pub extern "C" fn overlay_list<'a>(
    state: &mut [u8],
    upper: &'a [u8],
    lower: &'a [u8],
    node: u64,
    offset: u64,
    size: u64,
    buffer: &mut [u8],
) -> u64
    ensures { (result ≡ packed (list_spec upper.now lower.now state.old node offset size buffer.old).answer) × (state.new ≡ (list_spec upper.now lower.now state.old node offset size buffer.old).state) × (buffer.new ≡ (list_spec upper.now lower.now state.old node offset size buffer.old).buffer) }
{
    face::overlay_list(state, upper, lower, node, offset, size, buffer)
}

#[unsafe(no_mangle)]
pub extern "C" fn overlay_forget(state: &mut [u8], node: u64, amount: u64)
    ensures { state.new ≡ forget_call state.old node amount }
{
    face::overlay_forget(state, node, amount);
}

#[unsafe(no_mangle)]
pub extern "C" fn overlay_node(state: &[u8], node: u64, out: &mut [u8]) -> u32
    ensures { (result ≡ errno_of (node_answer state.now node out.old)) × (out.new ≡ node_out state.now node out.old) }
{
    face::overlay_node(state, node, out)
}
