//! What a block cipher means, and the guard that clears a lent workspace.
#![tactic(auto)]

ghost use Rattle.std.specs.Prelude.{◌≡◌, ℕ, ◌≤◌, List, length};
ghost use Rattle.cipher.specs.Cipher.{prepared, enciphered, one_block};
ghost use Rattle.cipher.specs.Workspace.{left};

/// How many octets of a lent workspace a call may use. A shorter workspace is never touched.
pub const WORKSPACE: usize = 256;

/// A block cipher: from a key of sixteen octets and a block of sixteen octets to a block of sixteen octets.
///
/// A key is first turned into its schedule, which stands at the start of a lent workspace; blocks are then
/// enciphered under the schedule that stands there. Neither call refuses. A workspace under 256 octets
/// has a defined outcome too: `prepare` leaves it alone and `encipher` gives the block back as it came.
pub trait BlockCipher {
    /// the protocol identifier
    ghost protocol: { ℕ };

    /// how many octets a schedule has
    ghost size: { ℕ };

    /// the schedule of a key
    ghost schedule: { List ℕ → List ℕ };

    /// the block worked out of a block under a schedule
    ghost worked: { List ℕ → List ℕ → List ℕ };

    /// The protocol identifier that messages under this cipher carry.
    fn pid() -> u8
        ensures value { result ≡ protocol };

    /// Writes the schedule of `key` at the start of the workspace, and nothing after it.
    fn prepare(key: &[u8; 16], workspace: &mut [u8])
        ensures workspace { workspace.new ≡ prepared (schedule key.now) workspace.old };

    /// Enciphers a block under the schedule that stands at the start of the workspace, whoever wrote it.
    fn encipher(workspace: &[u8], block: &[u8; 16]) -> [u8; 16]
        ensures value { result ≡ enciphered size worked workspace.now block.now };

    ghost fits: { size ≤ 256 };

    ghost scheduled: { (k : List ℕ) → length (schedule k) ≡ size };

    ghost blocks: { (s x : List ℕ) → length (worked s x) ≡ 16 };
}

/// E(K, X) in one call: prepares the workspace for `key` and enciphers `block` under the schedule that then stands there.
/// A workspace under 256 octets stays as it is, and the block comes back as it came.
pub fn block_under<C: BlockCipher>(
    key: &[u8; 16],
    block: &[u8; 16],
    workspace: &mut [u8],
) -> [u8; 16]
    ensures value { result ≡ one_block C.BlockCipher.schedule C.BlockCipher.worked key.now block.now workspace.old }
    ensures workspace { workspace.new ≡ prepared (C.BlockCipher.schedule key.now) workspace.old }
{
    C::prepare(key, workspace);
    C::encipher(workspace, block)
}

/// Writes zeros over the first 256 octets of a workspace and leaves the rest; leaves a shorter one alone.
fn clear(workspace: &mut [u8])
    ensures workspace { workspace.new ≡ left workspace.old }
{
    if workspace.len() < WORKSPACE {
        return;
    }
    workspace[0..256].fill(0);
}

/// A lent workspace that is cleared when the guard goes, on whatever way that is.
///
/// It is made by its literal: tried was a function that makes or refuses it, after which the proof no longer knows which slice it
/// clears.
pub struct Guard<'a>(pub &'a mut [u8]);

impl Drop for Guard<'_> {
    fn drop(self)
        ensures workspace { self.exit.0.now ≡ left self.entry.0.now }
    {
        clear(self.0);
        let Guard(_) = self;
    }
}
