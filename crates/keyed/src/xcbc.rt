//! XCBC as in RFC 3566, with any block cipher in the place of AES.
ghost use Rattle.std.specs.Prelude.{◌≡◌, ◌*◌, ◌<◌, ◌≤◌, length, drop};
ghost use Rattle.keyed.specs.Compared.{gathered};
ghost use Rattle.std.specs.Str.{bytes_eq};
ghost use Rattle.cipher.specs.Cipher.{E, enciphered};
ghost use Rattle.keyed.specs.Xcbc.{xors, chain, padded, closed, keyed_result, tag};

use cipher::BlockCipher;

/// The exclusive or of a block, as it lies in a message, and another.
fn xor(a: &[u8], b: &[u8; 16]) -> [u8; 16]
    requires { length a.now ≡ 16 }
    ensures value { result ≡ xors a.now b.now }
{
    let mut sum = [0; 16];
    // By index: tried by `array::from_fn`, of which the proof knows no longer which blocks its closure reads, and by `iter_mut`,
    // after which it does not know what was left.
    for i in 0..16 {
        sum[i] = a[i] ^ b[i];
    }
    sum
}

/// A block that is not full, with its padding.
fn pad(last: &[u8]) -> [u8; 16]
    requires { length last.now < 16 }
    ensures value { result ≡ padded last.now }
{
    let mut block = [0; 16];
    block[0..last.len()].copy_from_slice(last);
    block[last.len()] = 0x80;
    block
}

/// What is enciphered last: the last block, the chain before it, and the key for a full block or for a padded one.
fn close(last: &[u8], state: &[u8; 16], full: &[u8; 16], short: &[u8; 16]) -> [u8; 16]
    requires { length last.now ≤ 16 }
    ensures value { result ≡ closed full.now short.now state.now last.now }
{
    if last.len() == 16 {
        xor(&xor(last, state), full)
    } else {
        xor(&xor(&pad(last), state), short)
    }
}

/// The chain after `count` blocks of a message, under the schedule that stands in the workspace.
fn run<C: BlockCipher>(workspace: &[u8], message: &[u8], count: usize) -> [u8; 16]
    requires { 16 * count ≤ length message.now }
    ensures value { result ≡ chain (enciphered C.BlockCipher.size C.BlockCipher.worked workspace.now) message.now count }
{
    let mut state = [0; 16];
    for block in message[0..16 * count].chunks_exact(16) {
        let mixed = xor(block, &state);
        state = C::encipher(workspace, &mixed);
    }
    state
}

/// result(K, M): the sixteen octets that XCBC makes of a message of any length under a key.
pub fn result<C: BlockCipher>(key: &[u8; 16], message: &[u8], workspace: &mut [u8]) -> [u8; 16]
    requires { 256 ≤ length workspace.old }
    ensures value { result ≡ keyed_result (E C.BlockCipher.schedule C.BlockCipher.worked) key.now message.now }
    ensures workspace { drop 256 workspace.new ≡ drop 256 workspace.old }
{
    C::prepare(key, workspace);
    let k1 = C::encipher(workspace, &[1; 16]);
    let k2 = C::encipher(workspace, &[2; 16]);
    let k3 = C::encipher(workspace, &[3; 16]);
    C::prepare(&k1, workspace);
    let count = message.len().saturating_sub(1) / 16;
    let state = run::<C>(workspace, message, count);
    let last = close(&message[16 * count..], &state, &k2, &k3);
    C::encipher(workspace, &last)
}

/// The tag of a message: the first twelve octets of its result.
pub fn tag<C: BlockCipher>(key: &[u8; 16], message: &[u8], workspace: &mut [u8]) -> [u8; 12]
    requires { 256 ≤ length workspace.old }
    ensures value { result ≡ tag (E C.BlockCipher.schedule C.BlockCipher.worked) key.now message.now }
    ensures workspace { drop 256 workspace.new ≡ drop 256 workspace.old }
{
    let full = result::<C>(key, message, workspace);
    <[u8; 12]>::try_from(&full[0..12]).unwrap()
}

/// Whether `octets` are the tag of a message, by a comparison that does not leave early.
pub fn tag_matches<C: BlockCipher>(
    key: &[u8; 16],
    message: &[u8],
    octets: &[u8],
    workspace: &mut [u8],
) -> bool
    requires { 256 ≤ length workspace.old }
    ensures value { result ≡ bytes_eq (tag (E C.BlockCipher.schedule C.BlockCipher.worked) key.now message.now) octets.now }
    ensures workspace { drop 256 workspace.new ≡ drop 256 workspace.old }
{
    same(&tag::<C>(key, message, workspace), octets)
}

/// Whether these octets are the expected tag. The comparison goes through all twelve, whatever it meets.
fn same(expected: &[u8; 12], octets: &[u8]) -> bool
    ensures value { result ≡ bytes_eq expected.now octets.now }
{
    octets.len() == 12 && difference(expected, octets) == 0
}

/// The bits in which octets differ from others, gathered over all of them.
fn difference(a: &[u8], b: &[u8]) -> u8
    ensures value { result ≡ gathered 0 a.now b.now }
{
    a.iter().zip(b).fold(0, |bits, (x, y)| bits | (x ^ y))
}
