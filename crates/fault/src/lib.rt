//! Refusals. What breaks a rule is refused with a number, the layer that found it and a place.
#![tactic(auto)]

ghost use Rattle.std.specs.Prelude.{◌≡◌, Some};
ghost use Rattle.fault.specs.Faults.{number_of, layer_of, host_fault, message_fault, handshake_fault, channel_fault};
ghost use Rattle.fault.specs.Words.{layer_name, host_meaning, message_meaning, handshake_meaning, channel_meaning, meaning, sentence};

use std::fmt;

/// What our own firmware did wrong. The place of such a refusal is 0.
#[derive(Clone, Copy, PartialEq, Eq, Debug)]
pub enum HostCause {
    /// 1: a buffer that was lent, or a key or counter handed over, has the wrong size
    Size,
    /// 2: the payload is longer than 4,096 octets
    PayloadLength,
    /// 3: it is the other end's turn
    Turn,
    /// 4: the end's own number is 16,777,215, the last one
    LastNumber,
    /// 5: an own key cannot be made
    OwnKey,
}

/// What is wrong with the form of a message.
#[derive(Clone, Copy, PartialEq, Eq, Debug)]
pub enum MessageCause {
    /// 6: wrong length, at the message's length
    Length,
    /// 7: not the awaited kind, at 0
    Kind,
    /// 8: another protocol identifier, at 1
    Protocol,
    /// 9: wrong map of fields, at 2
    Map,
    /// 10: the data length is over 4,096, at 6
    DataLength,
}

/// What is wrong with a handshake message of good form.
#[derive(Clone, Copy, PartialEq, Eq, Debug)]
pub enum HandshakeCause {
    /// 13: wrong tag, at the tag
    Tag,
    /// 14: the peer's label is invalid, at the label
    Label,
}

/// What is wrong with a packet of good form.
#[derive(Clone, Copy, PartialEq, Eq, Debug)]
pub enum ChannelCause {
    /// 11: the number is not above the own one, at the number
    Stale,
    /// 12: the number is more than one above the own one, at the number
    Ahead,
    /// 13: wrong tag, at the tag
    Tag,
}

/// The layer that found the fault, with that layer's cause.
#[derive(Clone, Copy, PartialEq, Eq, Debug)]
pub enum Layer {
    Host(HostCause),
    Message(MessageCause),
    Handshake(HandshakeCause),
    Channel(ChannelCause),
}

/// A refusal: its layer with the cause, and its place in the message.
#[derive(Clone, Copy, PartialEq, Eq, Debug)]
pub struct Fault {
    pub layer: Layer,
    pub place: usize,
}

impl Layer {
    fn number(&self) -> u8
        ensures value { result ≡ number_of self.now }
    {
        match self {
            Layer::Host(HostCause::Size) => 1,
            Layer::Host(HostCause::PayloadLength) => 2,
            Layer::Host(HostCause::Turn) => 3,
            Layer::Host(HostCause::LastNumber) => 4,
            Layer::Host(HostCause::OwnKey) => 5,
            Layer::Message(MessageCause::Length) => 6,
            Layer::Message(MessageCause::Kind) => 7,
            Layer::Message(MessageCause::Protocol) => 8,
            Layer::Message(MessageCause::Map) => 9,
            Layer::Message(MessageCause::DataLength) => 10,
            Layer::Channel(ChannelCause::Stale) => 11,
            Layer::Channel(ChannelCause::Ahead) => 12,
            Layer::Channel(ChannelCause::Tag) => 13,
            Layer::Handshake(HandshakeCause::Tag) => 13,
            Layer::Handshake(HandshakeCause::Label) => 14,
        }
    }

    fn level(&self) -> u8
        ensures value { result ≡ layer_of self.now }
    {
        match self {
            Layer::Host(_) => 1,
            Layer::Message(_) => 2,
            Layer::Handshake(_) => 3,
            Layer::Channel(_) => 4,
        }
    }

    fn name(&self) -> &'static str
        ensures value { result.now ≡ layer_name self.now }
    {
        match self {
            Layer::Host(_) => "host",
            Layer::Message(_) => "message",
            Layer::Handshake(_) => "handshake",
            Layer::Channel(_) => "channel",
        }
    }
}

/// What is wrong, in the words of the layer's cause.
impl fmt::Display for Layer {
    ghost output = { λ l. Some (meaning l) };

    fn fmt<W: fmt::Write>(&self, f: &mut fmt::Formatter<W>) -> fmt::Result {
        match self {
            Layer::Host(cause) => cause.fmt(f),
            Layer::Message(cause) => cause.fmt(f),
            Layer::Handshake(cause) => cause.fmt(f),
            Layer::Channel(cause) => cause.fmt(f),
        }
    }
}

impl fmt::Display for HostCause {
    ghost output = { λ c. Some (host_meaning c) };

    fn fmt<W: fmt::Write>(&self, f: &mut fmt::Formatter<W>) -> fmt::Result {
        f.write_str(match self {
            HostCause::Size => "wrong size of a buffer, key or counter",
            HostCause::PayloadLength => "payload too long",
            HostCause::Turn => "not this end's turn",
            HostCause::LastNumber => "last number reached",
            HostCause::OwnKey => "own key cannot be made",
        })
    }
}

impl fmt::Display for MessageCause {
    ghost output = { λ c. Some (message_meaning c) };

    fn fmt<W: fmt::Write>(&self, f: &mut fmt::Formatter<W>) -> fmt::Result {
        f.write_str(match self {
            MessageCause::Length => "wrong length",
            MessageCause::Kind => "not the awaited kind",
            MessageCause::Protocol => "another protocol identifier",
            MessageCause::Map => "wrong map of fields",
            MessageCause::DataLength => "data length over the limit",
        })
    }
}

impl fmt::Display for HandshakeCause {
    ghost output = { λ c. Some (handshake_meaning c) };

    fn fmt<W: fmt::Write>(&self, f: &mut fmt::Formatter<W>) -> fmt::Result {
        f.write_str(match self {
            HandshakeCause::Tag => "wrong tag",
            HandshakeCause::Label => "invalid label",
        })
    }
}

impl fmt::Display for ChannelCause {
    ghost output = { λ c. Some (channel_meaning c) };

    fn fmt<W: fmt::Write>(&self, f: &mut fmt::Formatter<W>) -> fmt::Result {
        f.write_str(match self {
            ChannelCause::Stale => "number not above the own one",
            ChannelCause::Ahead => "number more than one above the own one",
            ChannelCause::Tag => "wrong tag",
        })
    }
}

impl Fault {
    /// A refusal of the host's own doing, at place 0.
    pub fn host(cause: HostCause) -> Fault
        ensures value { result ≡ host_fault cause }
    {
        Fault {
            layer: Layer::Host(cause),
            place: 0,
        }
    }

    /// A refusal of a message's form.
    pub fn message(cause: MessageCause, place: usize) -> Fault
        ensures value { result ≡ message_fault cause place }
    {
        Fault {
            layer: Layer::Message(cause),
            place,
        }
    }

    /// A refusal of a handshake message.
    pub fn handshake(cause: HandshakeCause, place: usize) -> Fault
        ensures value { result ≡ handshake_fault cause place }
    {
        Fault {
            layer: Layer::Handshake(cause),
            place,
        }
    }

    /// A refusal of a packet.
    pub fn channel(cause: ChannelCause, place: usize) -> Fault
        ensures value { result ≡ channel_fault cause place }
    {
        Fault {
            layer: Layer::Channel(cause),
            place,
        }
    }

    /// The number of the refusal, 1 to 14; a wrong tag is 13 in either layer.
    pub fn number(&self) -> u8
        ensures value { result ≡ number_of self.now.layer }
    {
        self.layer.number()
    }

    /// The number of the layer that found it: 1 host, 2 message, 3 handshake, 4 channel.
    pub fn level(&self) -> u8
        ensures value { result ≡ layer_of self.now.layer }
    {
        self.layer.level()
    }

    /// Where in the message it was found; 0 for the host's own refusals.
    pub fn place(&self) -> usize
        ensures value { result ≡ self.now.place }
    {
        self.place
    }
}

/// A refusal of the host's own doing.
impl From<HostCause> for Fault {
    ghost from_gives = { λ c r. r ≡ host_fault c };

    fn from(cause: HostCause) -> Fault {
        Fault::host(cause)
    }
}

impl fmt::Display for Fault {
    ghost output = { λ f. Some (sentence f) };

    fn fmt<W: fmt::Write>(&self, f: &mut fmt::Formatter<W>) -> fmt::Result {
        let Fault { layer, place } = *self;
        let number = layer.number();
        let name = layer.name();
        write!(f, "refusal {number}, {name} layer, place {place}: {layer}")
    }
}
