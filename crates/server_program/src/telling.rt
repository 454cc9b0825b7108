//! What a person sees on standard error: why the program did not start; and of a server that listens where, what it found, and why it ended. What can't be
//! printed is not seen.

ghost use Rattle.std.specs.Prelude.{None};

use folder_lock::LockFault;
use link_edge::{Found, Notice};
use server::USAGE;
use std::io;
use std::net::SocketAddr;

/// The line that tells where a server listens and what it found there. It is printed once the streams are opened.
#[derive(Drop)]
pub struct ListenLine<'a> {
    pub rt: &'a HostRuntime,
    /// Where it listens.
    pub address: SocketAddr,
    /// The folder of the streams.
    pub dir: &'a str,
}

impl Notice for ListenLine<'_> {
    ghost told = { λ _. None };

    fn opened(&mut self, found: Found) {
        tell_found(self.rt, self.address, self.dir, found);
        if !self.address.ip().to_canonical().is_loopback() {
            tell_open(self.rt, self.address);
        }
    }
}

/// Prints at which address it listens, and what it found in which folder.
fn tell_found(rt: &HostRuntime, address: SocketAddr, dir: &str, found: Found) {
    let Found { streams, messages } = found;
    let _ = eprintln!(rt;
        "jsblock listens at {address}, with {streams} stream{} and {messages} message{} in {dir}",
        plural(streams),
        plural(messages)
    );
}

/// Prints what it means to listen at an address that other machines reach.
fn tell_open(rt: &HostRuntime, address: SocketAddr) {
    let _ = eprintln!(rt;
        "jsblock: whoever reaches {address} may read, change and delete everything; there are no users, and nothing is encrypted"
    );
}

/// By what the word for so many things ends.
fn plural(count: u64) -> &'static str {
    if count == 1 { "" } else { "s" }
}

/// Why a server that listened ended, by its status.
fn reason_of(status: u8) -> &'static str {
    match status {
        0 => "no more connections were to be accepted",
        4 => "the disk failed, or is full",
        5 => "the folder holds what no server may have left",
        7 => "out of memory",
        8 => "it could accept no more connections",
        10 => "the numbers of turns or of sessions are used up",
        _ => "its status tells why",
    }
}

/// Prints why a server over this folder ended.
pub fn tell_end(rt: &HostRuntime, dir: &str, status: u8) {
    let _ = eprintln!(rt; "jsblock ended over {dir}: {}", reason_of(status));
}

/// Prints why the folder can't be had.
pub fn tell_lock_fault(rt: &HostRuntime, dir: &str, fault: &LockFault) {
    let _ = match fault {
        LockFault::InUse => {
            eprintln!(rt; "jsblock: cannot use the folder {dir}: another process uses it")
        }
        LockFault::Failed(error) => eprintln!(rt; "jsblock: cannot use the folder {dir}: {error}"),
    };
}

/// Prints why the address can't be listened at.
pub fn tell_unbound(rt: &HostRuntime, address: SocketAddr, error: &io::Error) {
    let _ = eprintln!(rt; "jsblock: cannot listen at {address}: {error}");
}

/// Prints that a word is no text, and how the program is called.
pub fn tell_no_text(rt: &HostRuntime) {
    let _ = eprintln!(rt; "jsblock: a word of the command line is not UTF-8\n{USAGE}");
}
