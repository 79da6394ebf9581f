//! Strings that are put together from parts.
ghost use Rattle.std.specs.Prelude.{◌≡◌, ◌≤◌, ◌++◌, length, drop};
ghost use Rattle.cipher.specs.Cipher.{E};
ghost use Rattle.keyed.specs.Parts.{joined};
ghost use Rattle.keyed.specs.Xcbc.{keyed_result};

use crate::xcbc;
use cipher::BlockCipher;

/// How many octets the longest string has.
pub(crate) const LONGEST: usize = 71;

/// Writes parts one after another at the start of `string`, and says how many octets they have.
pub(crate) fn write(string: &mut [u8], parts: &[&[u8]]) -> usize
    requires { length (joined parts.now) ≤ length string.old }
    ensures value { result ≡ length (joined parts.now) }
    ensures output { string.new ≡ joined parts.now ++ drop (length (joined parts.now)) string.old }
{
    // `at` counts octets and not turns; a rest that is split anew at each turn would be no plainer.
    let mut at = 0;
    for part in parts {
        string[at..at + part.len()].copy_from_slice(part);
        at += part.len();
    }
    at
}

/// The result of a string given by its parts.
pub(crate) fn result_of<C: BlockCipher>(
    key: &[u8; 16],
    parts: &[&[u8]],
    workspace: &mut [u8],
) -> [u8; 16]
    requires { (length (joined parts.now) ≤ 71) × (256 ≤ length workspace.old) }
    ensures value { result ≡ keyed_result (E C.BlockCipher.schedule C.BlockCipher.worked) key.now (joined parts.now) }
    ensures workspace { drop 256 workspace.new ≡ drop 256 workspace.old }
{
    let mut string = [0; LONGEST];
    let count = write(&mut string, parts);
    xcbc::result::<C>(key, &string[0..count], workspace)
}
