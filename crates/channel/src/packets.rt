//! The calls of an open end.
ghost use Rattle.std.specs.Prelude.{◌≡◌, ◌+◌, ◌<◌, ◌≤◌, ◌++◌, length, length as size, drop, IfOk, Ok, Err, MatchResult};
ghost use Rattle.std.specs.Str.{bytes_eq};
ghost use Rattle.cipher.specs.Cipher.{E};
ghost use Rattle.cipher.specs.Workspace.{left};
ghost use Rattle.keyed.specs.Keystream.{moved};
ghost use Rattle.message.specs.Layout.{number_at};
ghost use Rattle.channel.specs.Steps.{written};
ghost use Rattle.channel.specs.Packets.{seals_at, data_in, tag_of, packet_tag, crypted, sealed_packet, seal_check, seal_end, seal_output, unseal_check, unseal_end, unseal_output, closed};
ghost use Rattle.channel.specs.Within.{advanced_to, packet_check, Fits, seal_within, unseal_within};

use crate::{Epoch, Open, Role, Ticket};
use cipher::{BlockCipher, Guard, WORKSPACE};
use fault::{ChannelCause, Fault, HostCause};
use keyed::{keystream, tag, tag_matches};
use message::{Kind, LAST_NUMBER, PAYLOAD, PacketNumber, enc_head};

impl Epoch {
    /// Writes the next packet with this payload at the start of the output, and answers the counter after it.
    fn write_packet<C: BlockCipher>(
        &self,
        number: PacketNumber,
        payload: &[u8],
        workspace: &mut [u8],
        output: &mut [u8],
    ) -> u128
        requires { (number.value ≡ self.now.number + 1) × ((length payload.now ≤ 4096) × ((256 ≤ length workspace.old) × (21 + length payload.now ≤ length output.old))) }
        ensures value { result ≡ moved self.now.keys.counter (length payload.now) }
        ensures output { output.new ≡ sealed_packet (E C.BlockCipher.schedule C.BlockCipher.worked) C.BlockCipher.protocol self.now payload.now ++ drop (21 + length payload.now) output.old }
        ensures workspace { drop 256 workspace.new ≡ drop 256 workspace.old }
    {
        let keys = &self.keys;
        let end = 9 + payload.len();
        output[0..9].copy_from_slice(&enc_head(C::pid(), number, payload.len() as u16));
        let sealed = &mut output[9..end];
        let counter = keystream::<C>(&keys.encryption, keys.counter, payload, sealed, workspace);
        let tag = tag::<C>(&keys.integrity, &output[3..end], workspace);
        output[end..end + 12].copy_from_slice(&tag);
        counter
    }

    /// Whether a message is the next packet, with its payload's length and its number.
    fn check_packet<C: BlockCipher>(
        &self,
        message: &[u8],
        workspace: &mut [u8],
    ) -> Result<(usize, u32), Fault>
        requires { 256 ≤ length workspace.old }
        ensures value { result ≡ packet_check (E C.BlockCipher.schedule C.BlockCipher.worked) C.BlockCipher.protocol self.now message.now }
        ensures workspace { drop 256 workspace.new ≡ drop 256 workspace.old }
        ensures form { IfOk result (λ p. Fits message.now p.0) }
    {
        Kind::Enc.check(C::pid(), message)?;
        let (length, number) = packet_fields(message);
        if number <= self.number {
            return Err(Fault::channel(ChannelCause::Stale, 3));
        }
        if number - self.number > 1 {
            return Err(Fault::channel(ChannelCause::Ahead, 3));
        }
        if !self.tag_stands::<C>(message, length, workspace) {
            return Err(Fault::channel(ChannelCause::Tag, 9 + length));
        }
        Ok((length, number))
    }

    /// Whether the tag of a packet with a payload of `length` octets is right.
    fn tag_stands<C: BlockCipher>(
        &self,
        message: &[u8],
        length: usize,
        workspace: &mut [u8],
    ) -> bool
        requires { (length ≡ number_at message.now 6) × ((size message.now ≡ 21 + length) × (256 ≤ size workspace.old)) }
        ensures value { result ≡ bytes_eq (packet_tag (E C.BlockCipher.schedule C.BlockCipher.worked) self.now (number_at message.now 3) (data_in message.now)) (tag_of message.now) }
        ensures workspace { drop 256 workspace.new ≡ drop 256 workspace.old }
    {
        let end = 9 + length;
        let theirs = &message[end..end + 12];
        tag_matches::<C>(&self.keys.integrity, &message[3..end], theirs, workspace)
    }

    /// Moves on by one packet, to the counter after it.
    fn advance(&mut self, counter: u128)
        requires { self.old.number < 16777215 }
        ensures end { self.new ≡ advanced_to self.old counter }
    {
        self.keys.counter = counter;
        self.number += 1;
    }
}

/// The payload's length and the number of a packet of good form.
fn packet_fields(message: &[u8]) -> (usize, u32)
    requires { length message.now ≡ 21 + number_at message.now 6 }
    ensures value { result ≡ (number_at message.now 6, number_at message.now 3) }
{
    let number = u32::from_be_bytes([0, message[3], message[4], message[5]]);
    (message.len() - 21, number)
}

impl<C: BlockCipher, K> Open<C, K> {
    /// Whether this end is the one that seals the next packet: the fob after even numbers, the mixer after odd ones.
    fn has_turn(&self) -> bool
        ensures value { result ≡ seals_at self.now.role self.now.epoch.number }
    {
        match self.role {
            Role::Fob => self.epoch.number % 2 == 0,
            Role::Mixer => self.epoch.number % 2 == 1,
        }
    }

    /// Which end it is.
    pub fn role(&self) -> Role
        ensures value { result ≡ self.now.role }
    {
        self.role
    }

    /// The number of the last packet that was sealed or unsealed; 0 before the first.
    pub fn number(&self) -> u32
        ensures value { result ≡ self.now.epoch.number }
    {
        self.epoch.number
    }

    /// The counter from which the next packet is enciphered.
    pub fn counter(&self) -> u128
        ensures value { result ≡ self.now.epoch.keys.counter }
    {
        self.epoch.keys.counter
    }

    /// Closes the end: takes the ticket back, and answers the own key and the last number.
    pub fn close(self, ticket: Ticket) -> (K, u32)
        ensures value { result ≡ closed self }
    {
        let Ticket { spent: _ } = ticket;
        let Open {
            role: _,
            key,
            epoch,
            cipher: _,
        } = self;
        (key, epoch.number)
    }

    /// Seals a payload: writes a packet and answers how many octets it has.
    pub fn seal(
        &mut self,
        payload: &[u8],
        workspace: &mut [u8],
        output: &mut [u8],
    ) -> Result<usize, Fault>
        ensures value { result ≡ seal_check self.old payload.now workspace.old output.old }
        ensures end { self.new ≡ seal_end self.old payload.now result }
        ensures output { output.new ≡ seal_output C.BlockCipher.protocol (E C.BlockCipher.schedule C.BlockCipher.worked) self.old payload.now workspace.old output.old }
        ensures workspace { workspace.new ≡ left workspace.old }
    {
        if workspace.len() < WORKSPACE {
            return Err(HostCause::Size.into());
        }
        let guard = Guard(workspace);
        self.seal_within(payload, guard.0, output)
    }

    /// The same with a workspace of full size.
    fn seal_within(
        &mut self,
        payload: &[u8],
        workspace: &mut [u8],
        output: &mut [u8],
    ) -> Result<usize, Fault>
        requires { 256 ≤ length workspace.old }
        ensures value { result ≡ seal_within self.old payload.now output.old }
        ensures end { self.new ≡ seal_end self.old payload.now result }
        ensures output { output.new ≡ written (21 + length payload.now) (λ _. sealed_packet (E C.BlockCipher.schedule C.BlockCipher.worked) C.BlockCipher.protocol self.old.epoch payload.now) result output.old }
        ensures workspace { drop 256 workspace.new ≡ drop 256 workspace.old }
    {
        let number = self.check_seal(payload, output)?;
        let counter = self
            .epoch
            .write_packet::<C>(number, payload, workspace, output);
        self.epoch.advance(counter);
        Ok(21 + payload.len())
    }

    /// What sealing is checked for, and the number that the packet gets.
    fn check_seal(&self, payload: &[u8], output: &[u8]) -> Result<PacketNumber, Fault>
        ensures value { MatchResult result (λ n. (seal_within self.now payload.now output.now ≡ Ok (21 + length payload.now)) × (n.value ≡ self.now.epoch.number + 1) × (length payload.now ≤ 4096) × (21 + length payload.now ≤ length output.now)) (λ f. seal_within self.now payload.now output.now ≡ Err f) }
    {
        if payload.len() > PAYLOAD {
            return Err(HostCause::PayloadLength.into());
        }
        if output.len() < 21 + payload.len() {
            return Err(HostCause::Size.into());
        }
        let Ok(number) = PacketNumber::try_from(self.epoch.number.saturating_add(1)) else {
            return Err(HostCause::LastNumber.into());
        };
        if !self.has_turn() {
            return Err(HostCause::Turn.into());
        }
        Ok(number)
    }

    /// Unseals a packet: writes its payload at the start of the output, and answers the payload's length and the packet's number.
    pub fn unseal(
        &mut self,
        message: &[u8],
        workspace: &mut [u8],
        output: &mut [u8],
    ) -> Result<(usize, u32), Fault>
        ensures value { result ≡ unseal_check C.BlockCipher.protocol (E C.BlockCipher.schedule C.BlockCipher.worked) self.old message.now workspace.old output.old }
        ensures end { self.new ≡ unseal_end self.old result }
        ensures output { output.new ≡ unseal_output C.BlockCipher.protocol (E C.BlockCipher.schedule C.BlockCipher.worked) self.old message.now workspace.old output.old }
        ensures workspace { workspace.new ≡ left workspace.old }
    {
        if workspace.len() < WORKSPACE {
            return Err(HostCause::Size.into());
        }
        let guard = Guard(workspace);
        self.unseal_within(message, guard.0, output)
    }

    /// The same with a workspace of full size.
    fn unseal_within(
        &mut self,
        message: &[u8],
        workspace: &mut [u8],
        output: &mut [u8],
    ) -> Result<(usize, u32), Fault>
        requires { 256 ≤ length workspace.old }
        ensures value { result ≡ unseal_within C.BlockCipher.protocol (E C.BlockCipher.schedule C.BlockCipher.worked) self.old message.now output.old }
        ensures end { self.new ≡ unseal_end self.old result }
        ensures output { output.new ≡ written (number_at message.now 6) (λ _. crypted (E C.BlockCipher.schedule C.BlockCipher.worked) self.old.epoch (data_in message.now)) result output.old }
        ensures workspace { drop 256 workspace.new ≡ drop 256 workspace.old }
    {
        let (length, number) = self.check_unseal(message, workspace, output)?;
        let keys = &self.epoch.keys;
        let sealed = &message[9..9 + length];
        let counter = keystream::<C>(&keys.encryption, keys.counter, sealed, output, workspace);
        self.epoch.advance(counter);
        Ok((length, number))
    }

    /// What unsealing is checked for, the packet last; nothing is deciphered before its tag was found right.
    fn check_unseal(
        &self,
        message: &[u8],
        workspace: &mut [u8],
        output: &[u8],
    ) -> Result<(usize, u32), Fault>
        requires { 256 ≤ length workspace.old }
        ensures value { result ≡ unseal_within C.BlockCipher.protocol (E C.BlockCipher.schedule C.BlockCipher.worked) self.now message.now output.now }
        ensures workspace { drop 256 workspace.new ≡ drop 256 workspace.old }
        ensures form { IfOk result (λ p. Fits message.now p.0 × (self.now.epoch.number < 16777215) × (4096 ≤ length output.now)) }
    {
        if output.len() < PAYLOAD {
            return Err(HostCause::Size.into());
        }
        if self.epoch.number >= LAST_NUMBER {
            return Err(HostCause::LastNumber.into());
        }
        if self.has_turn() {
            return Err(HostCause::Turn.into());
        }
        self.epoch.check_packet::<C>(message, workspace)
    }
}
