//! The items of a trace.

use sx_lang::sides::Side;

/// Why a node was reset: the first rule that its code broke, or a line of the schedule.
#[derive(Clone, Copy, PartialEq, Eq, Debug)]
pub enum Cause {
    /// A module was entered elsewhere than at its entry.
    Order,
    /// An instruction was fetched from a place where it may not be.
    Fetch,
    /// A byte was read that may not be read.
    Read,
    /// A byte was written that may not be written.
    Write,
    /// A device was used otherwise than its kind allows.
    Device,
    /// The word was no legal instruction.
    Illegal,
    /// A buffer passed the end of memory, or had more bytes than it may.
    Range,
    /// A line of the schedule asked for it.
    Asked,
}

/// One item of a trace. Nodes, devices, modules and connections are given by their indices in the
/// lists of names; a module is one of deployed identity, whose node, layout, provider and public
/// bytes are those of the deployed module.
#[derive(Clone, Copy, PartialEq, Eq, Debug)]
pub enum Item {
    /// A node was reset.
    Reset {
        node: u8,
        cause: Cause,
    },
    /// A protect succeeded, of a deployed identity or, with no module, of another.
    Protect {
        node: u8,
        module: Option<u8>,
    },
    /// A line gave a sensor this value.
    Sense {
        device: u8,
        value: u16,
    },
    /// A module read its fresh sensor.
    Read {
        module: u8,
        value: u16,
    },
    /// Other code read a fresh sensor.
    Drain {
        device: u8,
    },
    /// The deployer asked a module to attest itself.
    Ask {
        module: u8,
        challenge: u128,
    },
    /// The deployer accepted an answer for this boot.
    Attested {
        module: u8,
        boot: u32,
    },
    /// The deployer accepted no answer.
    Denied {
        module: u8,
    },
    /// A module wrapped an empty body under its own key with an ask header.
    Vouch {
        module: u8,
        challenge: u128,
    },
    /// A module unwrapped a set-key header for this end of a connection.
    Open {
        module: u8,
        link: u8,
        side: Side,
        epoch: u8,
    },
    /// A module unwrapped an event header for its receiving end of a connection. The number is
    /// 65,536 times the header's epoch plus the header's number.
    Take {
        module: u8,
        link: u8,
        number: u32,
        value: u16,
    },
    /// An actuator was written by its driver.
    Out {
        module: u8,
        value: u16,
    },
    /// An actuator was written by other code.
    Raw {
        device: u8,
        value: u16,
    },
    /// A module left its public section by a plain instruction, with this status in R12 and this
    /// count of pieces in R13.
    Done {
        module: u8,
        status: u16,
        pieces: u16,
    },
    /// A new packet, and how many bytes it has.
    Packet {
        number: u32,
        len: u16,
    },
    /// What the item after this one rests on, its rightful maker hadn't made. The module is the one
    /// that opened or took; none is the deployer, which attested.
    Forged {
        module: Option<u8>,
    },
    /// A line was refused since a module runs.
    Busy {
        node: u8,
    },
    /// A line was refused for another reason.
    Skip {
        node: u8,
    },
    /// A module still runs after as many steps as a line may take.
    Budget {
        node: u8,
    },
}
