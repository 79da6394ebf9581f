//! The calls of `firmware` as C links them, under the names of `include/mulgawo.h`. Each says what its call says.
//!
//! They stand twice, here and in `firmware`, since C links a static library and a crate is either one or a library.
#![tactic(auto)]

ghost use Rattle.std.specs.Prelude.{◌≡◌};
ghost use Rattle.cipher.specs.Workspace.{left};
ghost use Rattle.message.specs.Reading.{checked};
ghost use Rattle.firmware.specs.Keyed.{tag_number, tag_output, stream_number, stream_output};
ghost use Rattle.firmware.specs.Verdicts.{verdict};

use firmware::Verdict;

/// Whether the octets are a message of the awaited kind under this protocol identifier, or why not.
#[unsafe(no_mangle)]
pub extern "C" fn mulgawo_check(awaited: u32, pid: u32, octets: &[u8]) -> Verdict
    ensures value { result ≡ verdict (checked awaited pid octets.now) }
{
    firmware::mulgawo_check(awaited, pid, octets)
}

/// Writes the tag of the data under AES at the start of the output. Answers 0, or 1 for a key that has not 16 octets, a
/// workspace under 256 or an output under 12.
#[unsafe(no_mangle)]
pub extern "C" fn mulgawo_tag(
    key: &[u8],
    data: &[u8],
    workspace: &mut [u8],
    output: &mut [u8],
) -> u32
    ensures value { result ≡ tag_number key.now workspace.old output.old }
    ensures output { output.new ≡ tag_output result key.now «data».now output.old }
    ensures workspace { workspace.new ≡ left workspace.old }
{
    firmware::mulgawo_tag(key, data, workspace, output)
}

/// Writes the data under the keystream of AES from the counter on at the start of the output. Answers 0, or 1 for a key or a
/// counter that has not 16 octets, a workspace under 256 or an output under the data.
#[unsafe(no_mangle)]
pub extern "C" fn mulgawo_keystream(
    key: &[u8],
    counter: &[u8],
    data: &[u8],
    workspace: &mut [u8],
    output: &mut [u8],
) -> u32
    ensures value { result ≡ stream_number key.now counter.now «data».now workspace.old output.old }
    ensures output { output.new ≡ stream_output result key.now counter.now «data».now output.old }
    ensures workspace { workspace.new ≡ left workspace.old }
{
    firmware::mulgawo_keystream(key, counter, data, workspace, output)
}
