//! What the mixer's C firmware calls: total functions on numbers and octet buffers. C links them through the
//! crate `firmware_c`: a library exports nothing.
#![tactic(auto)]

ghost use Rattle.std.specs.Prelude.{◌≡◌, ◌≤◌, length, drop};
ghost use Rattle.cipher.specs.Workspace.{left};
ghost use Rattle.message.specs.Reading.{checked};
ghost use Rattle.firmware.specs.Keyed.{tag_number, tag_output, stream_number, stream_output};
ghost use Rattle.firmware.specs.Verdicts.{verdict};

use aes::Aes;
use cipher::{Guard, WORKSPACE};
use fault::{Fault, HostCause};

/// The answer to C: 0 and 0 where a call is accepted, else the number and the place of the refusal.
#[repr(C)]
#[derive(Clone, Copy, PartialEq, Eq, Debug)]
pub struct Verdict {
    pub number: u32,
    pub place: usize,
}

/// What C is told of a call.
impl From<Result<(), Fault>> for Verdict {
    ghost from_gives = { λ done v. v ≡ verdict done };

    fn from(done: Result<(), Fault>) -> Verdict {
        match done {
            Ok(()) => Verdict {
                number: 0,
                place: 0,
            },
            Err(fault) => Verdict {
                number: u32::from(fault.number()),
                place: fault.place(),
            },
        }
    }
}

/// Whether the octets are a message of the awaited kind under this protocol identifier, or why not.
#[unsafe(no_mangle)]
pub extern "C" fn mulgawo_check(awaited: u32, pid: u32, octets: &[u8]) -> Verdict
    ensures value { result ≡ verdict (checked awaited pid octets.now) }
{
    Verdict::from(message::check(awaited, pid, octets))
}

/// The tag of the data under AES, where the workspace has its full size.
fn tag_within(key: &[u8], data: &[u8], workspace: &mut [u8], output: &mut [u8]) -> Result<(), Fault>
    requires { 256 ≤ length workspace.old }
    ensures value { (verdict result).number ≡ tag_number key.now workspace.old output.old }
    ensures output { output.new ≡ tag_output (verdict result).number key.now «data».now output.old }
    ensures workspace { drop 256 workspace.new ≡ drop 256 workspace.old }
{
    let key = <[u8; 16]>::try_from(key).map_err(|_| HostCause::Size)?;
    let place = output.first_chunk_mut::<12>().ok_or(HostCause::Size)?;
    *place = keyed::tag::<Aes>(&key, data, workspace);
    Ok(())
}

/// Writes the tag of the data under AES at the start of the output. Answers 0, or 1 for a key that has not 16 octets, a
/// workspace under 256 or an output under 12.
#[unsafe(no_mangle)]
pub extern "C" fn mulgawo_tag(
    key: &[u8],
    data: &[u8],
    workspace: &mut [u8],
    output: &mut [u8],
) -> u32
    ensures value { result ≡ tag_number key.now workspace.old output.old }
    ensures output { output.new ≡ tag_output result key.now «data».now output.old }
    ensures workspace { workspace.new ≡ left workspace.old }
{
    if workspace.len() < WORKSPACE {
        return Verdict::from(Err(HostCause::Size.into())).number;
    }
    let guard = Guard(workspace);
    Verdict::from(tag_within(key, data, guard.0, output)).number
}

/// The data under the keystream of AES, where the workspace has its full size.
fn keystream_within(
    key: &[u8],
    counter: &[u8],
    data: &[u8],
    workspace: &mut [u8],
    output: &mut [u8],
) -> Result<(), Fault>
    requires { 256 ≤ length workspace.old }
    ensures value { (verdict result).number ≡ stream_number key.now counter.now «data».now workspace.old output.old }
    ensures output { output.new ≡ stream_output (verdict result).number key.now counter.now «data».now output.old }
    ensures workspace { drop 256 workspace.new ≡ drop 256 workspace.old }
{
    let key = <[u8; 16]>::try_from(key).map_err(|_| HostCause::Size)?;
    let counter = <[u8; 16]>::try_from(counter).map_err(|_| HostCause::Size)?;
    if output.len() < data.len() {
        return Err(HostCause::Size.into());
    }
    let first = u128::from_be_bytes(counter);
    let _moved = keyed::keystream::<Aes>(&key, first, data, output, workspace);
    Ok(())
}

/// Writes the data under the keystream of AES from the counter on at the start of the output. Answers 0, or 1 for a key or a
/// counter that has not 16 octets, a workspace under 256 or an output under the data.
#[unsafe(no_mangle)]
pub extern "C" fn mulgawo_keystream(
    key: &[u8],
    counter: &[u8],
    data: &[u8],
    workspace: &mut [u8],
    output: &mut [u8],
) -> u32
    ensures value { result ≡ stream_number key.now counter.now «data».now workspace.old output.old }
    ensures output { output.new ≡ stream_output result key.now counter.now «data».now output.old }
    ensures workspace { workspace.new ≡ left workspace.old }
{
    if workspace.len() < WORKSPACE {
        return Verdict::from(Err(HostCause::Size.into())).number;
    }
    let guard = Guard(workspace);
    Verdict::from(keystream_within(key, counter, data, guard.0, output)).number
}
