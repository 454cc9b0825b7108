//! Where `serve` keeps its streams, where it listens, and for how many.

ghost use Rattle.std.specs.Prelude.{◌≡◌, ◌≤◌, true, None, Some, IfOk, IfSome, MatchResult, option_map};
ghost use Rattle.std.specs.Char.{is_ascii_digit};
ghost use Rattle.std.specs.List.{list_all};
ghost use Rattle.std.specs.Net.Addr.{ipv4_octets, ipv6_segments};
ghost use Rattle.std.specs.Net.Socket.{socket_ip, socket_port};
ghost use Rattle.std.specs.Net.Text.{ip_text, ipv4_text, ipv6_text};
ghost use Rattle.server.specs.Addresses.{address_of};
ghost use Rattle.server.specs.Listening.{is_number, number_of, listen_of, few_workers, workers_of, limit_of, accepts_of, listening_of};
ghost use Rattle.server.specs.Settings.{settings_of};
ghost use Rattle.server.specs.Words.{texts, Reads};
ghost use Rattle.server.specs.WrongWords.{wrong_in, wrong_serving, wrong_text, Tells};
ghost use Rattle.session.specs.Host.{is_plain};

use crate::mistakes::{Mistake, WrongWord};
use crate::settings::{ACCEPTS, DIR, LISTEN, WORKERS, value_of};
use crate::words::{FolderPath, WordsFault};
use js_base::{Blob, NoMemory};
use std::alloc::Global;
use std::net::{IpAddr, Ipv4Addr, Ipv6Addr, SocketAddr};

/// The address that is listened at if none is told: that of this machine alone, at the port of NATS.
const USUAL_LISTEN: &str = "127.0.0.1:4222";

/// How many workers there are if no number is told.
const USUAL_WORKERS: u32 = 16;

/// How many workers there may be.
const MOST_WORKERS: u64 = 32;

/// How many digits a number may have.
const MOST_DIGITS: usize = 19;

/// After how many connections no more are accepted.
#[derive(Clone, Copy, Debug, PartialEq, Eq)]
pub enum AcceptLimit {
    Unlimited,
    /// One or more.
    Connections(u64),
}

/// What `serve` is asked to do.
#[derive(Drop, Debug)]
pub struct Listening {
    /// The folder in which the streams are kept.
    pub dir: FolderPath,
    /// Where connections are awaited.
    pub listen: SocketAddr,
    /// How many connections are served at a time: 1 to 32.
    pub workers: u32,
    pub accepts: AcceptLimit,
}

impl Listening {
    /// The text of the IP address, without the port, or `NoMemory` if memory runs out. It needs no escape in JSON.
    pub fn host(&self, alloc: Global) -> Result<Blob, NoMemory>
        ensures text { IfOk result (λ host. host ≡ ip_text (socket_ip self.now.listen)) }
        ensures plain { IfOk result (λ host. is_plain host ≡ true) }
    {
        match self.listen.ip() {
            IpAddr::V4(ip) => v4_host(alloc, ip),
            IpAddr::V6(ip) => v6_host(alloc, ip),
        }
    }

    /// The port.
    pub fn port(&self) -> u16
        ensures { result ≡ socket_port self.now.listen }
    {
        self.listen.port()
    }
}

/// The text of the IPv4 address.
fn v4_host(alloc: Global, ip: Ipv4Addr) -> Result<Blob, NoMemory>
    ensures text { IfOk result (λ host. host ≡ ipv4_text (ipv4_octets ip)) }
    ensures plain { IfOk result (λ host. is_plain host ≡ true) }
{
    match format!(in alloc; "{ip}") {
        Ok(text) => Blob::of(alloc, text.as_bytes()),
        Err(_) => Err(NoMemory),
    }
}

/// The text of the IPv6 address.
fn v6_host(alloc: Global, ip: Ipv6Addr) -> Result<Blob, NoMemory>
    ensures text { IfOk result (λ host. host ≡ ipv6_text (ipv6_segments ip)) }
    ensures plain { IfOk result (λ host. is_plain host ≡ true) }
{
    match format!(in alloc; "{ip}") {
        Ok(text) => Blob::of(alloc, text.as_bytes()),
        Err(_) => Err(NoMemory),
    }
}

/// Whether each byte is a decimal digit.
fn are_digits(text: &[u8]) -> bool
    ensures value { result ≡ list_all is_ascii_digit text.now }
{
    text.iter().all(|byte| byte.is_ascii_digit())
}

/// Whether the text is a number: 1 to 19 decimal digits, leading zeros among them.
fn is_number(text: &str) -> bool
    ensures value { result ≡ is_number text.now }
{
    let digits = text.as_bytes();
    !digits.is_empty() && digits.len() <= MOST_DIGITS && are_digits(digits)
}

/// The number that the text spells, if it is one.
#[tactic(auto, using(crate::proofs::Numbers::number_parsed))]
fn number_of(text: &str) -> Option<u64>
    ensures value { result ≡ number_of text.now }
{
    if is_number(text) {
        text.parse().ok()
    } else {
        None
    }
}

/// The socket address that the text writes, if it writes one.
#[tactic(auto, using(crate::proofs::Addressed::address_parsed))]
fn address_of(text: &str) -> Option<SocketAddr>
    ensures value { result ≡ address_of text.now }
{
    text.parse().ok()
}

/// The address that is told, or the usual one.
fn listen_of(text: Option<&str>) -> Option<SocketAddr>
    ensures value { result ≡ listen_of (option_map (λ text. text.now) text.entry) }
{
    match text {
        Some(text) => address_of(text),
        None => address_of(USUAL_LISTEN),
    }
}

/// How many workers are told, or the usual number.
fn workers_of(text: Option<&str>) -> Option<u32>
    ensures value { result ≡ workers_of (option_map (λ text. text.now) text.entry) }
{
    let Some(text) = text else {
        return Some(USUAL_WORKERS);
    };
    match number_of(text)? {
        workers @ 1..=MOST_WORKERS => Some(workers as u32),
        _ => None,
    }
}

/// How many connections are told, or no limit.
fn accepts_of(text: Option<&str>) -> Option<AcceptLimit>
    ensures value { result ≡ accepts_of (option_map (λ text. text.now) text.entry) }
{
    let Some(text) = text else {
        return Some(AcceptLimit::Unlimited);
    };
    match number_of(text)? {
        0 => Some(AcceptLimit::Unlimited),
        connections => Some(AcceptLimit::Connections(connections)),
    }
}

/// What is said by the text of an option, or the mistake in it.
fn said<'a, T>(said: Option<T>, mistake: Mistake, text: Option<&'a str>) -> Result<T, WrongWord<'a>>
    ensures said { MatchResult result (λ value. said ≡ Some value) (λ wrong. said ≡ None) }
    ensures wrong { MatchResult result
        (λ value. wrong_text mistake said (option_map (λ text. text.now) text.entry) ≡ None)
        (λ wrong. wrong_text mistake said (option_map (λ text. text.now) text.entry) ≡ Some (wrong_in wrong)) }
{
    said.ok_or(WrongWord {
        mistake,
        word: text.unwrap_or(""),
    })
}

/// What the settings of `serve` say.
pub(crate) fn read_listening(
    alloc: Global,
    settings: &[String],
) -> Result<Listening, WordsFault<'_>>
    ensures command { Reads result (listening_of (settings_of (texts settings.now))) }
    ensures wrong { Tells result (wrong_serving (settings_of (texts settings.now))) }
{
    let Some(dir) = value_of(DIR, settings) else {
        return Err(WrongWord::lacking(Mistake::NoFolder).into());
    };
    let listen = value_of(LISTEN, settings);
    let listen = said(listen_of(listen), Mistake::WrongAddress, listen)?;
    let workers = value_of(WORKERS, settings);
    let workers = said(workers_of(workers), Mistake::WrongWorkers, workers)?;
    let accepts = value_of(ACCEPTS, settings);
    let accepts = said(accepts_of(accepts), Mistake::WrongAccepts, accepts)?;
    Ok(Listening {
        dir: FolderPath::copied(alloc, dir)?,
        listen,
        workers,
        accepts,
    })
}
