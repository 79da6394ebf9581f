//! Whole sessions through both ends. Each call is given what the file has, and what the end does is compared with the file.
use channel::{Answered, Fob, Invited, Mixer, Nonce, Open, Proved, Role, Ticket};
use cipher::{BlockCipher, WORKSPACE};
use fault::Fault;
use lookup::KeyLookup;
use lookup::either::EitherKey;
use message::{ACT, PACKET, PAYLOAD, VERIFY};
use recorded::{OwnKey, Packet, Session};
use std::fmt;

/// A call whose outcome the file has; sealing and unsealing with the packet's number.
#[derive(Clone, Copy)]
enum Call {
    Key(Role),
    Invite,
    Answer,
    Prove,
    Confirm,
    Finish,
    Seal(u32),
    Unseal(u32),
    Close(Role),
}

/// What is not as the file has it.
#[derive(Clone, Copy)]
enum Cause {
    Missing,
    Refused(Fault),
    Octet(usize),
    Number,
    Counter,
    Label,
}

/// Where an end and the file differ.
#[derive(Clone, Copy)]
pub(crate) struct Difference {
    call: Call,
    cause: Cause,
}

impl Call {
    fn differs(self, cause: Cause) -> Difference {
        Difference { call: self, cause }
    }

    fn refused(self, fault: Fault) -> Difference {
        self.differs(Cause::Refused(fault))
    }

    /// Compares what an end wrote with what the file has.
    fn wrote(self, written: &[u8], expected: &[u8]) -> Result<(), Difference> {
        match first_other(written, expected) {
            Some(place) => Err(self.differs(Cause::Octet(place))),
            None => Ok(()),
        }
    }

    /// Compares the number and the counter of an open end with those of the file.
    fn left<C: BlockCipher, K>(
        self,
        end: &Open<C, K>,
        number: u32,
        counter: u128,
    ) -> Result<(), Difference> {
        if end.number() != number {
            return Err(self.differs(Cause::Number));
        }
        if end.counter() != counter {
            return Err(self.differs(Cause::Counter));
        }
        Ok(())
    }
}

impl fmt::Display for Call {
    fn fmt<W: fmt::Write>(&self, f: &mut fmt::Formatter<W>) -> fmt::Result {
        match *self {
            Call::Key(Role::Fob) => f.write_str("key of the fob"),
            Call::Key(Role::Mixer) => f.write_str("key of the mixer"),
            Call::Invite => f.write_str("invite"),
            Call::Answer => f.write_str("answer"),
            Call::Prove => f.write_str("prove"),
            Call::Confirm => f.write_str("confirm"),
            Call::Finish => f.write_str("finish"),
            Call::Seal(number) => write!(f, "seal of packet {number}"),
            Call::Unseal(number) => write!(f, "unseal of packet {number}"),
            Call::Close(Role::Fob) => f.write_str("close of the fob"),
            Call::Close(Role::Mixer) => f.write_str("close of the mixer"),
        }
    }
}

impl fmt::Display for Cause {
    fn fmt<W: fmt::Write>(&self, f: &mut fmt::Formatter<W>) -> fmt::Result {
        match *self {
            Cause::Missing => f.write_str("the file has none"),
            Cause::Refused(fault) => write!(f, "{fault}"),
            Cause::Octet(place) => write!(f, "another octet at {place}"),
            Cause::Number => f.write_str("another number"),
            Cause::Counter => f.write_str("another counter"),
            Cause::Label => f.write_str("another label"),
        }
    }
}

impl fmt::Display for Difference {
    fn fmt<W: fmt::Write>(&self, f: &mut fmt::Formatter<W>) -> fmt::Result {
        let Difference { call, cause } = *self;
        write!(f, "{call}: {cause}")
    }
}

/// The first place where octets differ, or one of them ends.
fn first_other(written: &[u8], expected: &[u8]) -> Option<usize> {
    let differs = written.iter().zip(expected).position(|(a, b)| a != b);
    if written.len() == expected.len() {
        return differs;
    }
    differs.or(Some(written.len().min(expected.len())))
}

/// Takes a session through both ends, up to the first difference.
pub(crate) fn replay<C: BlockCipher>(session: &Session) -> Result<(), Difference> {
    replay_end::<C>(session, Role::Fob, &session.fob_key)?;
    replay_end::<C>(session, Role::Mixer, &session.mixer_key)
}

/// Takes a session through one end.
fn replay_end<C: BlockCipher>(
    session: &Session,
    role: Role,
    own: &Option<OwnKey>,
) -> Result<(), Difference> {
    let call = Call::Key(role);
    let own = own.as_ref().ok_or(call.differs(Cause::Missing))?;
    let key = own.make().map_err(|fault| call.refused(fault))?;
    replay_with::<C, EitherKey<'_>>(session, role, key)
}

/// Takes a session through one end with its own key.
fn replay_with<C: BlockCipher, K: KeyLookup + Drop>(
    session: &Session,
    role: Role,
    key: K,
) -> Result<(), Difference> {
    match role {
        Role::Fob => fob::<C, K>(session, key),
        Role::Mixer => mixer::<C, K>(session, key),
    }
}

/// The fob of a session, from its key to its close.
fn fob<C: BlockCipher, K: KeyLookup + Drop>(session: &Session, key: K) -> Result<(), Difference> {
    let proved = prove(session, invite::<C, K>(session, key)?)?;
    let (end, ticket) = proved
        .finish(&session.vfy_res, &mut [0; WORKSPACE])
        .map_err(|refused| Call::Finish.refused(refused.fault))?;
    open_end(session, Call::Finish, end, ticket, &session.act_req)
}

fn invite<C: BlockCipher, K: KeyLookup + Drop>(
    session: &Session,
    key: K,
) -> Result<Invited<C, K>, Difference> {
    let nonce = Nonce::new(session.nonces.fob);
    let mut output = [0; ACT];
    let invited = Fob::<C>::new(session.identities)
        .invite(key, nonce, &mut output)
        .map_err(|refused| Call::Invite.refused(refused.fault))?;
    Call::Invite.wrote(&output, &session.act_req)?;
    Ok(invited)
}

fn prove<C: BlockCipher, K: KeyLookup + Drop>(
    session: &Session,
    invited: Invited<C, K>,
) -> Result<Proved<C, K>, Difference> {
    let mut output = [0; VERIFY];
    let proved = invited
        .prove(&session.act_res, &mut [0; WORKSPACE], &mut output)
        .map_err(|refused| Call::Prove.refused(refused.fault))?;
    Call::Prove.wrote(&output, &session.vfy_req)?;
    Ok(proved)
}

/// The mixer of a session, from its key to its close.
fn mixer<C: BlockCipher, K: KeyLookup + Drop>(session: &Session, key: K) -> Result<(), Difference> {
    let answered = answer::<C, K>(session, key)?;
    let mut output = [0; VERIFY];
    let (end, ticket) = answered
        .confirm(&session.vfy_req, &mut [0; WORKSPACE], &mut output)
        .map_err(|refused| Call::Confirm.refused(refused.fault))?;
    let went = open_end(session, Call::Confirm, end, ticket, &session.act_res);
    Call::Confirm.wrote(&output, &session.vfy_res)?;
    went
}

fn answer<C: BlockCipher, K: KeyLookup + Drop>(
    session: &Session,
    key: K,
) -> Result<Answered<C, K>, Difference> {
    let nonce = Nonce::new(session.nonces.mixer);
    let end = Mixer::<C>::new(session.identities);
    let mut output = [0; ACT];
    let answered = end
        .answer(
            key,
            nonce,
            &session.act_req,
            &mut [0; WORKSPACE],
            &mut output,
        )
        .map_err(|refused| Call::Answer.refused(refused.fault))?;
    Call::Answer.wrote(&output, &session.act_res)?;
    Ok(answered)
}

/// An open end, to its close; `by` is the call that opened it, and `own` its message with a label.
fn open_end<C: BlockCipher, K: KeyLookup + Drop>(
    session: &Session,
    by: Call,
    mut end: Open<C, K>,
    ticket: Ticket,
    own: &[u8],
) -> Result<(), Difference> {
    let went = packets(session, by, &mut end);
    let call = Call::Close(end.role());
    let (key, number) = end.close(ticket);
    went?;
    if number != session.packets.last().map_or(0, |packet| packet.number) {
        return Err(call.differs(Cause::Number));
    }
    if own.get(3..28) != Some(&key.label()[0..25]) {
        return Err(call.differs(Cause::Label));
    }
    Ok(())
}

/// The packets of a session at one end.
fn packets<C: BlockCipher, K: KeyLookup>(
    session: &Session,
    by: Call,
    end: &mut Open<C, K>,
) -> Result<(), Difference> {
    by.left(end, 0, session.keys.counter)?;
    for packet in &session.packets {
        pass(end, packet)?;
    }
    Ok(())
}

/// A packet of a session at one end: the fob seals the odd ones, the mixer the even ones.
fn pass<C: BlockCipher, K: KeyLookup>(
    end: &mut Open<C, K>,
    packet: &Packet,
) -> Result<(), Difference> {
    let call = match (end.role(), packet.number % 2) {
        (Role::Fob, 1) | (Role::Mixer, 0) => seal(end, packet)?,
        _ => unseal(end, packet)?,
    };
    call.left(end, packet.number, packet.counter.unwrap_or(0))
}

/// The message of a packet, empty where the file has none.
fn sent(packet: &Packet) -> &[u8] {
    packet.message.as_deref().unwrap_or(&[])
}

/// Seals a payload of the file.
fn seal<C: BlockCipher, K: KeyLookup>(
    end: &mut Open<C, K>,
    packet: &Packet,
) -> Result<Call, Difference> {
    let call = Call::Seal(packet.number);
    let mut output = [0; PACKET];
    let size = end
        .seal(&packet.payload, &mut [0; WORKSPACE], &mut output)
        .map_err(|fault| call.refused(fault))?;
    call.wrote(output.get(0..size).unwrap_or(&[]), sent(packet))?;
    Ok(call)
}

/// Unseals a packet of the file.
fn unseal<C: BlockCipher, K: KeyLookup>(
    end: &mut Open<C, K>,
    packet: &Packet,
) -> Result<Call, Difference> {
    let call = Call::Unseal(packet.number);
    let mut output = [0; PAYLOAD];
    let (size, number) = end
        .unseal(sent(packet), &mut [0; WORKSPACE], &mut output)
        .map_err(|fault| call.refused(fault))?;
    if number != packet.number {
        return Err(call.differs(Cause::Number));
    }
    call.wrote(output.get(0..size).unwrap_or(&[]), &packet.payload)?;
    Ok(call)
}
