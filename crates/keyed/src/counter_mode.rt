//! The keystream: the cipher in counter mode.
ghost use Rattle.std.specs.Prelude.{◌≡◌, ◌≤◌, length, take, drop};
ghost use Rattle.cipher.specs.Cipher.{E};
ghost use Rattle.keyed.specs.Keystream.{xored, moved, over, GivesBack, KeepsLength};

use cipher::BlockCipher;

/// Writes the data under the keystream to the output, as far as both reach, and answers the counter moved by one block for each sixteen octets begun.
pub fn keystream<C: BlockCipher>(
    key: &[u8; 16],
    counter: u128,
    data: &[u8],
    output: &mut [u8],
    workspace: &mut [u8],
) -> u128
    requires { 256 ≤ length workspace.old }
    ensures value { result ≡ moved counter (length (take (length output.old) «data».now)) }
    ensures output { output.new ≡ over (xored (E C.BlockCipher.schedule C.BlockCipher.worked) key.now counter (take (length output.old) «data».now)) output.old }
    ensures workspace { drop 256 workspace.new ≡ drop 256 workspace.old }
    ensures gives_back { GivesBack }
    ensures keeps_length { KeepsLength }
{
    C::prepare(key, workspace);
    let count = data.len().min(output.len());
    let mut next = counter;
    let mut block = [0; 16];
    // By index: after `chunks_mut` or `iter_mut` the proof does not close, since it knows how long the output is, but not what
    // stands in it.
    for i in 0..count {
        if i % 16 == 0 {
            block = C::encipher(workspace, &next.to_be_bytes());
            next = next.wrapping_add(1);
        }
        output[i] = data[i] ^ block[i % 16];
    }
    next
}
