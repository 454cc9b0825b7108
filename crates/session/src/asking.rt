//! What an operation asks of the desk, and what is said for it.

ghost use Rattle.std.specs.Prelude.{◌≡◌, ◌++◌, ◌&&◌, true, OnOk, IfOk, option_map};
ghost use Rattle.js_base.specs.Subjects.{is_publish_text};
ghost use Rattle.js_api.specs.Answering.{Unsub};
ghost use Rattle.session.specs.Connecting.{connect_options};
ghost use Rattle.session.specs.Manners.{peer_of};
ghost use Rattle.session.specs.Peer.{Calls, connected, connecting, fine, is_reply, message, op_request, peer_after_op, publishing, subscribing, unpublishable_bytes};
ghost use Rattle.session.specs.Talk.{all_called_bytes, op_answer};
ghost use Rattle.session.specs.Asking.{Asks, IsUnchecked, said_for};
ghost use Rattle.session.specs.Carrying.{IsSpelled};

use crate::connect::read_connect;
use crate::ending::Refusal;
use crate::error_line::write_error;
use crate::manners::{Manners, Pings};
use crate::stop::Stop;
use js_api::{Desk, DeskFault};
use js_base::{Blob, Frame, Moment, NoMemory, Out};
use nats_frames::{Op, write_frame};
use nats_headers::is_block;
use std::alloc::Global;
use subject_match::{check_pattern, check_subject, is_publish_subject};

/// Adds `+OK`, if operations are answered by it.
fn write_fine(verbose: bool, into: &mut Vec<u8>) -> Result<(), NoMemory>
    ensures ok { OnOk result (into.new.items ≡ into.old.items ++ fine verbose) }
{
    if verbose {
        write_frame(&Frame::Ok, into)
    } else {
        Ok(())
    }
}

/// Sets the client's options by the text of a CONNECT, and answers by the new ones.
fn connect<D: Desk>(
    alloc: Global,
    desk: &mut D,
    text: &[u8],
    manners: &mut Manners,
    into: &mut Vec<u8>,
) -> Result<(), Stop>
    requires is_open { (D.client desk.old).is_open ≡ true }
    ensures asks { Asks D.made (D.client desk.old) (connecting (connect_options text.now)) (all_called_bytes manners.new.verbose)
        desk.old desk.new into.old.items into.new.items result }
    ensures peer { OnOk result (peer_of (D.client desk.new) manners.new ≡ connected (peer_of (D.client desk.old) manners.old) (connect_options text.now)) }
    ensures session { (D.client desk.new).session ≡ (D.client desk.old).session }
    ensures is_open { (D.client desk.new).is_open ≡ true }
{
    let options = match read_connect(alloc, text) {
        Ok(options) => options,
        Err(stop) => return Err(stop),
    };
    desk.options(options.echo, options.headers, options.no_responders)?;
    manners.verbose = options.verbose;
    manners.pedantic = options.pedantic;
    Ok(write_fine(options.verbose, into)?)
}

/// The message of a publish.
fn message_of(
    subject: Blob,
    reply: Option<Blob>,
    headers: Blob,
    payload: Blob,
) -> Result<Out, NoMemory>
    ensures message { IfOk result (λ made. made ≡ message subject reply headers payload) }
{
    Ok(Out {
        to: subject.clone()?,
        subject,
        reply,
        headers,
        payload,
    })
}

/// Whether an answer may go there: to nobody, or to a subject without wildcards.
fn is_reply(reply: &Option<Blob>) -> bool
    ensures value { result ≡ is_reply reply.now }
{
    match reply {
        Some(text) => check_subject(text.as_slice()).is_ok(),
        None => true,
    }
}

/// Whether the subjects of a message are such that a client may publish it.
fn is_publishable(message: &Out) -> bool
    ensures value { result ≡ (is_publish_text message.now.to && is_reply message.now.reply) }
{
    is_publish_subject(message.to.as_slice()) && is_reply(&message.reply)
}

/// Tells a pedantic client that it may not publish to a subject. For any other one the publish is an operation like the rest.
fn write_unpublishable(alloc: Global, manners: Manners, into: &mut Vec<u8>) -> Result<(), NoMemory>
    ensures ok { OnOk result (into.new.items ≡ into.old.items ++ unpublishable_bytes manners.verbose manners.pedantic) }
{
    if manners.pedantic {
        write_error(alloc, b"Invalid Publish Subject", into)
    } else {
        write_fine(manners.verbose, into)
    }
}

/// Publishes a message, if its subjects are right; else it goes to nobody.
fn publish<D: Desk>(
    alloc: Global,
    desk: &mut D,
    message: &Out,
    manners: Manners,
    now: Moment,
    into: &mut Vec<u8>,
) -> Result<(), Stop>
    requires message { IsUnchecked message.now }
    requires is_open { (D.client desk.old).is_open ≡ true }
    ensures asks { Asks D.made (D.client desk.old) (publishing now message.now)
        (said_for manners.verbose manners.pedantic (publishing now message.now)) desk.old desk.new into.old.items into.new.items result }
    ensures client { D.client desk.new ≡ D.client desk.old }
    ensures is_open { (D.client desk.new).is_open ≡ true }
{
    if !is_publishable(message) {
        return Ok(write_unpublishable(alloc, manners, into)?);
    }
    desk.publish(message, now)?;
    Ok(write_fine(manners.verbose, into)?)
}

/// The text that there may be.
fn text_of(text: &Option<Blob>) -> Option<&[u8]>
    ensures value { option_map (λ part. part.now) result ≡ text.now }
{
    match text {
        Some(text) => Some(text.as_slice()),
        None => None,
    }
}

/// Subscribes to a pattern, if it is one.
fn subscribe<D: Desk>(
    alloc: Global,
    desk: &mut D,
    subject: &Blob,
    queue: &Option<Blob>,
    sid: &Blob,
    manners: Manners,
    into: &mut Vec<u8>,
) -> Result<(), Stop>
    requires is_open { (D.client desk.old).is_open ≡ true }
    ensures asks { Asks D.made (D.client desk.old) (subscribing subject.now queue.now sid.now)
        (said_for manners.verbose manners.pedantic (subscribing subject.now queue.now sid.now)) desk.old desk.new into.old.items into.new.items result }
    ensures client { D.client desk.new ≡ D.client desk.old }
    ensures is_open { (D.client desk.new).is_open ≡ true }
{
    if check_pattern(subject.as_slice()).is_err() {
        return Ok(write_error(alloc, b"Invalid Subject", into)?);
    }
    match desk.sub(subject.as_slice(), text_of(queue), sid.as_slice()) {
        Ok(()) => Ok(write_fine(manners.verbose, into)?),
        Err(DeskFault::TooManySubs) => Ok(write_error(
            alloc,
            b"maximum subscriptions exceeded",
            into,
        )?),
        Err(fault) => Err(Stop::from(fault)),
    }
}

/// Ends a subscription, at once or after so many messages.
fn unsubscribe<D: Desk>(
    desk: &mut D,
    sid: &[u8],
    max: Option<u64>,
    verbose: bool,
    into: &mut Vec<u8>,
) -> Result<(), Stop>
    requires is_open { (D.client desk.old).is_open ≡ true }
    ensures asks { Asks D.made (D.client desk.old) (Calls (Unsub sid.now max)) (all_called_bytes verbose)
        desk.old desk.new into.old.items into.new.items result }
    ensures client { D.client desk.new ≡ D.client desk.old }
    ensures is_open { (D.client desk.new).is_open ≡ true }
{
    desk.unsub(sid, max)?;
    Ok(write_fine(verbose, into)?)
}

/// Makes the desk call that an operation asks for, if it asks for one, and adds its direct answer.
pub(crate) fn ask<D: Desk>(
    alloc: Global,
    desk: &mut D,
    op: Op,
    manners: &mut Manners,
    now: Moment,
    into: &mut Vec<u8>,
) -> Result<(), Stop>
    requires spelled { IsSpelled op }
    requires is_open { (D.client desk.old).is_open ≡ true }
    ensures asks { Asks D.made (D.client desk.old) (op_request now op)
        (op_answer (peer_after_op (peer_of (D.client desk.old) manners.old) op) (op_request now op) op)
        desk.old desk.new into.old.items into.new.items result }
    ensures peer { OnOk result (peer_of (D.client desk.new) manners.new ≡ peer_after_op (peer_of (D.client desk.old) manners.old) op) }
    ensures session { (D.client desk.new).session ≡ (D.client desk.old).session }
    ensures is_open { (D.client desk.new).is_open ≡ true }
{
    match op {
        Op::Connect { text } => connect(alloc, desk, text.as_slice(), manners, into),
        Op::Pub {
            subject,
            reply,
            payload,
        } => {
            let message = message_of(subject, reply, Blob::empty(), payload)?;
            publish(alloc, desk, &message, *manners, now, into)
        }
        Op::HPub {
            subject,
            reply,
            headers,
            payload,
        } => {
            if !is_block(headers.as_slice()) {
                return Err(Stop::Refused(Refusal::BadHeaders));
            }
            let message = message_of(subject, reply, headers, payload)?;
            publish(alloc, desk, &message, *manners, now, into)
        }
        Op::Sub {
            subject,
            queue,
            sid,
        } => subscribe(alloc, desk, &subject, &queue, &sid, *manners, into),
        Op::Unsub { sid, max } => unsubscribe(desk, sid.as_slice(), max, manners.verbose, into),
        Op::Ping => Ok(write_frame(&Frame::Pong, into)?),
        Op::Pong => {
            manners.pings = Pings::Answered;
            Ok(())
        }
    }
}
