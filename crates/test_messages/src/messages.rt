//! Messages of all kinds, and what each means.
//!
//! A line is the body of a message to the house HSE, with `|` for SOH. One that begins with a type
//! and a space has the header of a message of AAA with number 7 put before what stands behind the
//! space. Of each line is written what it means; of a call also the body that acknowledges it as
//! entry 3, and the body that refuses it; of a message that fails a check the firm that its Reject
//! goes to, and the body. An empty line is copied.

use crate::bodies::{append_texts, append_with, framed};
use gu_base::{AllocId, Answer, Command, FirmId, NodeName, Number, Parts, Refusal, State};
use gu_codec::{Fields, Frame, read_frame};
use gu_message::{Inbound, MeaningError, Reject, ack, meaning, reject, reject_target, trade_ack};
use std::alloc::{AllocError, Global};
use std::fmt::Display;

/// The header of a message of AAA behind its type.
const HEADER: &str = "|49=AAA|56=HSE|34=7|52=20260302-09:00:01|";

/// Appends the body that a line stands for.
fn append_body(body: &mut Vec<u8>, line: &str) -> Result<(), AllocError> {
    match line.split_once(' ') {
        Some((kind, rest)) if !line.starts_with("35=") => {
            append_texts(body, &["35=", kind, HEADER, rest])
        }
        _ => append_texts(body, &[line]),
    }
}

/// The frame of the body that a line stands for.
fn frame_of(alloc: Global, line: &str) -> Result<Vec<u8>, AllocError> {
    let mut body = Vec::new(alloc);
    append_body(&mut body, line)?;
    framed(alloc, body.as_slice())
}

/// Writes a body with `|` for SOH.
fn show(rt: &impl Print, alloc: Global, what: &str, body: &[u8]) -> bool {
    let mut shown = Vec::new(alloc);
    if append_with(&mut shown, body, 1, b'|').is_err() {
        return false;
    }
    match str::from_utf8(shown.as_slice()) {
        Ok(text) => println!(rt; "  {what} {text}").is_ok(),
        Err(_) => println!(rt; "  {what} is no text").is_ok(),
    }
}

/// Writes the parts of a split.
fn show_parts(rt: &impl Print, parts: &Parts) -> bool {
    for part in parts.as_slice() {
        let is_shown = match part.account {
            Some(account) => println!(rt; "  {} {}/{account}", part.lots, part.firm).is_ok(),
            None => println!(rt; "  {} to {}", part.lots, part.firm).is_ok(),
        };
        if !is_shown {
            return false;
        }
    }
    true
}

/// Writes a split and its parts.
fn show_split(rt: &impl Print, node: &NodeName, parts: &Parts) -> bool {
    show_one(rt, "split", node) && show_parts(rt, parts)
}

/// Writes a command that names one thing.
fn show_one(rt: &impl Print, verb: &str, name: &impl Display) -> bool {
    println!(rt; "{verb} {name}").is_ok()
}

/// Writes a command that names two things.
fn show_two(rt: &impl Print, verb: &str, one: &impl Display, other: &impl Display) -> bool {
    println!(rt; "{verb} {one} {other}").is_ok()
}

/// Writes a command.
fn show_command(rt: &impl Print, command: &Command) -> bool {
    match command {
        Command::Trade {
            firm,
            account,
            instrument,
            side,
            lots,
        } => println!(rt; "trade {firm}/{account} {instrument} {side:?} {lots}").is_ok(),
        Command::Split { node, parts } => show_split(rt, node, parts),
        Command::Claim { node, account } => show_two(rt, "claim", node, account),
        Command::Refuse { node } => show_one(rt, "refuse", node),
        Command::Cancel { node } => show_one(rt, "cancel", node),
        Command::Agree {
            giver,
            taker,
            rate,
            limit,
        } => println!(rt; "agree {giver} {taker} rate {rate} limit {limit}").is_ok(),
        Command::Raise { giver, lots } => show_two(rt, "raise", giver, lots),
        Command::Initiate { entry } => show_one(rt, "initiate", entry),
        Command::Decline { entry } => show_one(rt, "decline", entry),
        Command::Reverse { entry } => show_one(rt, "reverse", entry),
    }
}

/// The status that a command has where it is accepted as its first.
fn status_of(command: &Command) -> State {
    match command {
        Command::Claim { .. } => State::Claimed,
        Command::Refuse { .. } => State::Refused,
        Command::Cancel { .. } => State::Cancelled,
        Command::Initiate { .. } => State::ReversalPending,
        Command::Reverse { .. } => State::Reversed,
        _ => State::Held,
    }
}

/// Writes the body of an answer to a call.
fn show_answer(rt: &impl Print, alloc: Global, trade: bool, id: &AllocId, answer: &Answer) -> bool {
    let mut body = Vec::new(alloc);
    if trade {
        trade_ack(&mut body, id, answer).is_ok() && show(rt, alloc, "AR", body.as_slice())
    } else {
        ack(&mut body, id, answer).is_ok() && show(rt, alloc, "P", body.as_slice())
    }
}

/// Writes two answers to a call: that it is accepted with this status, and that it is refused.
fn show_answers(rt: &impl Print, alloc: Global, trade: bool, id: &AllocId, status: State) -> bool {
    let Some(number) = Number::new(3) else {
        return false;
    };
    show_answer(rt, alloc, trade, id, &Answer::Accepted { number, status })
        && show_answer(rt, alloc, trade, id, &Answer::Refused(Refusal::SumDiffers))
}

/// Writes the Reject of a message.
fn show_reject(rt: &impl Print, alloc: Global, fields: Fields<'_>, fault: Reject) -> bool {
    let mut body = Vec::new(alloc);
    println!(rt; "reject to {}", reject_target(fields)).is_ok()
        && reject(&mut body, fields, fault).is_ok()
        && show(rt, alloc, "3", body.as_slice())
}

/// Writes what a message asks for.
fn show_inbound(rt: &impl Print, alloc: Global, inbound: &Inbound) -> bool {
    match inbound {
        Inbound::Call {
            firm,
            trade,
            id,
            command,
        } => {
            print!(rt; "{firm} {id}: ").is_ok()
                && show_command(rt, command)
                && show_answers(rt, alloc, *trade, id, status_of(command))
        }
        Inbound::Logon { heartbeat, reset } => {
            println!(rt; "logon, a heartbeat each {heartbeat} seconds, reset {reset}").is_ok()
        }
        Inbound::Heartbeat => rt.println("heartbeat").is_ok(),
        Inbound::TestRequest { id } => {
            rt.println("test request").is_ok() && show(rt, alloc, "112", id.as_bytes())
        }
        Inbound::ResendRequest { from, to } => {
            println!(rt; "resend request from {from} to {to}").is_ok()
        }
        Inbound::Reject => rt.println("a reject of the firm").is_ok(),
        Inbound::SequenceReset { gap_fill, next } => {
            println!(rt; "sequence reset to {next}, gap fill {gap_fill}").is_ok()
        }
        Inbound::Logout => rt.println("logout").is_ok(),
    }
}

/// Writes what a message means.
fn show_meaning(rt: &impl Print, alloc: Global, house: &FirmId, fields: Fields<'_>) -> bool {
    match &meaning(alloc, fields, house) {
        Ok(inbound) => show_inbound(rt, alloc, inbound),
        Err(MeaningError::Reject(fault)) => show_reject(rt, alloc, fields, *fault),
        Err(MeaningError::Memory) => rt.println("out of memory").is_ok(),
    }
}

/// Writes what the message of a frame means.
fn show_frame(rt: &impl Print, alloc: Global, house: &FirmId, frame: &[u8]) -> bool {
    match read_frame(frame) {
        Frame::Whole { fields, .. } => show_meaning(rt, alloc, house, fields),
        _ => rt.println("no frame").is_ok(),
    }
}

/// Writes what the message of a line means. Whether all went well.
pub(crate) fn tell(rt: &impl Print, alloc: Global, house: &FirmId, line: &str) -> bool {
    if line.is_empty() {
        return rt.println("").is_ok();
    }
    match frame_of(alloc, line) {
        Ok(frame) => show_frame(rt, alloc, house, frame.as_slice()),
        Err(_) => false,
    }
}
