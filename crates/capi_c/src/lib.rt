// The library for C: each function of `capi` that C calls, under its own name and with its clauses. A crate is a library for crates in Rattle or a
// static library, so what C links is this thin one, and all else stands in `capi`.
#![tactic(auto)]

ghost use Rattle.std.specs.Prelude.{◌≡◌, []};
ghost use Rattle.sha256.specs.Sha256.{sha256};
ghost use Rattle.state_bytes.specs.Layout.{state_length};
ghost use Rattle.agreement.specs.Calls.{agree_root, agree_bit, take_shares, take_relays};
ghost use Rattle.capi.specs.Calls.{library_version, returned, replies, open_call, opens, open_by_sender_call, called, read_packet_call};
ghost use Rattle.capi.specs.Calls.{read_message_call};
ghost use Rattle.capi.specs.Calls.{stage_call, own_call, session_call, faulty_call, result_length_call};
ghost use Rattle.capi.specs.Calls.{check_path_call, shares_call, rebuild_call, rebuild_with_root_call, hash_call};

// The version of the library that is linked, as one number.
#[unsafe(no_mangle)]
pub extern "C" fn cipangohu_version() -> u32
    ensures { result ≡ library_version }
{
    capi::cipangohu_version()
}

// How many bytes a state has.
#[unsafe(no_mangle)]
pub extern "C" fn cipangohu_state_size() -> usize
    ensures { result ≡ state_length }
{
    capi::cipangohu_state_size()
}

// Step 1. The state and the root are written only where both fit.
#[unsafe(no_mangle)]
pub extern "C" fn cipangohu_open(
    session: u32,
    n: usize,
    t: usize,
    own: usize,
    message: &[u8],
    state: &mut [u8],
    root: &mut [u8],
) -> u64
    ensures { replies result state.new root.new
        ≡ open_call sha256 session n t own message.now state.old root.old }
{
    capi::cipangohu_open(session, n, t, own, message, state, root)
}

// Step 1 by a named sender. The state, the root and the sender's packet are written only where all fit; the value is the length of that packet.
#[unsafe(no_mangle)]
pub extern "C" fn cipangohu_open_by_sender(
    session: u32,
    n: usize,
    t: usize,
    own: usize,
    sender: usize,
    bytes: &[u8],
    state: &mut [u8],
    root: &mut [u8],
    out: &mut [u8],
) -> u64
    ensures { opens result state.new root.new out.new
        ≡ open_by_sender_call sha256 session n t own sender bytes.now state.old root.old out.old }
{
    capi::cipangohu_open_by_sender(session, n, t, own, sender, bytes, state, root, out)
}

// Step 2: the agreed root. The value is the party's bit for the second short agreement.
#[unsafe(no_mangle)]
pub extern "C" fn cipangohu_agree_root(state: &mut [u8], root: &[u8]) -> u64
    ensures { replies result state.new [] ≡ called sha256 state.old (agree_root root.now) }
{
    capi::cipangohu_agree_root(state, root)
}

// Step 3: the agreed bit. The outbox goes to out.
#[unsafe(no_mangle)]
pub extern "C" fn cipangohu_agree_bit(state: &mut [u8], bit: usize, out: &mut [u8]) -> u64
    ensures { replies result state.new out.new
        ≡ called sha256 state.old (agree_bit bit out.old) }
{
    capi::cipangohu_agree_bit(state, bit, out)
}

// Step 4: the first inbox. The relayed packet goes to out.
#[unsafe(no_mangle)]
pub extern "C" fn cipangohu_take_shares(state: &mut [u8], inbox: &[u8], out: &mut [u8]) -> u64
    ensures { replies result state.new out.new
        ≡ called sha256 state.old (take_shares inbox.now out.old) }
{
    capi::cipangohu_take_shares(state, inbox, out)
}

// Step 5: the second inbox. A message goes to out. The value is odd for a message and even for nothing, and above that bit lies the map of those seen to be
// faulty.
#[unsafe(no_mangle)]
pub extern "C" fn cipangohu_take_relays(state: &mut [u8], inbox: &[u8], out: &mut [u8]) -> u64
    ensures { replies result state.new out.new
        ≡ called sha256 state.old (take_relays inbox.now out.old) }
{
    capi::cipangohu_take_relays(state, inbox, out)
}

// The number of the stage that a state is at.
#[unsafe(no_mangle)]
pub extern "C" fn cipangohu_stage(state: &[u8]) -> u64
    ensures { result ≡ stage_call state.now }
{
    capi::cipangohu_stage(state)
}

// The party's own number.
#[unsafe(no_mangle)]
pub extern "C" fn cipangohu_own(state: &[u8]) -> u64
    ensures { result ≡ own_call state.now }
{
    capi::cipangohu_own(state)
}

// The number of the session that the party sits in.
#[unsafe(no_mangle)]
pub extern "C" fn cipangohu_session(state: &[u8]) -> u64
    ensures { result ≡ session_call state.now }
{
    capi::cipangohu_session(state)
}

// The map of the parties that this one saw to be faulty.
#[unsafe(no_mangle)]
pub extern "C" fn cipangohu_faulty(state: &[u8]) -> u64
    ensures { result ≡ faulty_call state.now }
{
    capi::cipangohu_faulty(state)
}

// The length of the message that the party ended with.
#[unsafe(no_mangle)]
pub extern "C" fn cipangohu_result_length(state: &[u8]) -> u64
    ensures { result ≡ result_length_call state.now }
{
    capi::cipangohu_result_length(state)
}

// What bytes say as the packet of a named sender; its message begins at byte 3.
#[unsafe(no_mangle)]
pub extern "C" fn cipangohu_read_message(packet: &[u8]) -> u64
    ensures { result ≡ read_message_call packet.now }
{
    capi::cipangohu_read_message(packet)
}

// What a packet says among n parties; its share begins at byte 4, and its path follows the share.
#[unsafe(no_mangle)]
pub extern "C" fn cipangohu_read_packet(n: usize, packet: &[u8]) -> u64
    ensures { result ≡ read_packet_call n packet.now }
{
    capi::cipangohu_read_packet(n, packet)
}

// Whether the path leads from share j of n to the root.
#[unsafe(no_mangle)]
pub extern "C" fn cipangohu_check_path(
    session: u32,
    n: usize,
    j: usize,
    share: &[u8],
    path: &[u8],
    root: &[u8],
) -> u64
    ensures { result
        ≡ check_path_call sha256 session n j share.now path.now root.now }
{
    capi::cipangohu_check_path(session, n, j, share, path, root)
}

// The n shares of a message, one behind the other.
#[unsafe(no_mangle)]
pub extern "C" fn cipangohu_shares(n: usize, t: usize, message: &[u8], out: &mut [u8]) -> u64
    ensures { returned result out.new ≡ shares_call n t message.now out.old }
{
    capi::cipangohu_shares(n, t, message, out)
}

// The message again from n entries.
#[unsafe(no_mangle)]
pub extern "C" fn cipangohu_rebuild(n: usize, t: usize, entries: &[u8], out: &mut [u8]) -> u64
    ensures { returned result out.new ≡ rebuild_call n t entries.now out.old }
{
    capi::cipangohu_rebuild(n, t, entries, out)
}

// The message again from n entries, if it has this root.
#[unsafe(no_mangle)]
pub extern "C" fn cipangohu_rebuild_with_root(
    session: u32,
    n: usize,
    t: usize,
    root: &[u8],
    entries: &[u8],
    out: &mut [u8],
) -> u64
    ensures { returned result out.new
        ≡ rebuild_with_root_call sha256 session n t root.now entries.now out.old }
{
    capi::cipangohu_rebuild_with_root(session, n, t, root, entries, out)
}

// SHA-256 of a message.
#[unsafe(no_mangle)]
pub extern "C" fn cipangohu_hash(message: &[u8], out: &mut [u8]) -> u64
    ensures { returned result out.new ≡ hash_call message.now out.old }
{
    capi::cipangohu_hash(message, out)
}
