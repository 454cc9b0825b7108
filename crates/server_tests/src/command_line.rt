//! Command lines of `serve`: what those say that are commands, and those that are refused.

use js_base::NoMemory;
use server::{AcceptLimit, Command, Listening, Mistake, Verb, WordsFault, read_words};
use std::alloc::Global;
use std::net::{Ipv4Addr, Ipv6Addr, SocketAddr};
use std::test::Fail;

/// Command lines that are no commands, with the mistake that is told, and the word that has it.
const REFUSED: [(&str, Mistake, &str); 38] = [
    ("Serve --dir d", Mistake::UnknownCommand, "Serve"),
    ("--dir d serve", Mistake::UnknownCommand, "--dir"),
    ("serve", Mistake::NoFolder, ""),
    ("serve --listen 127.0.0.1:4222", Mistake::NoFolder, ""),
    ("serve --listen localhost:4222", Mistake::NoFolder, ""),
    ("serve --dir", Mistake::NoValue, "--dir"),
    ("serve --dir=", Mistake::NoValue, "--dir"),
    ("serve --dir --workers 4", Mistake::NoValue, "--dir"),
    ("serve --dir d --dir=d", Mistake::Twice, "--dir"),
    ("serve --dir d --workers 0", Mistake::WrongWorkers, "0"),
    ("serve --dir d --workers 33", Mistake::WrongWorkers, "33"),
    (
        "serve --dir d --workers 4294967297",
        Mistake::WrongWorkers,
        "4294967297",
    ),
    ("serve --dir d --workers +4", Mistake::WrongWorkers, "+4"),
    (
        "serve --dir d --workers 4 --workers 4",
        Mistake::Twice,
        "--workers",
    ),
    ("serve --dir d --workers=", Mistake::NoValue, "--workers"),
    (
        "serve --dir d --accepts 00000000000000000001",
        Mistake::WrongAccepts,
        "00000000000000000001",
    ),
    (
        "serve --dir d --accepts 10000000000000000000",
        Mistake::WrongAccepts,
        "10000000000000000000",
    ),
    ("serve --dir d --accepts 1k", Mistake::WrongAccepts, "1k"),
    ("serve --dir d --accepts -1", Mistake::NoValue, "--accepts"),
    (
        "serve --dir d --listen 127.0.0.1",
        Mistake::WrongAddress,
        "127.0.0.1",
    ),
    (
        "serve --dir d --listen 127.0.0.1:65536",
        Mistake::WrongAddress,
        "127.0.0.1:65536",
    ),
    (
        "serve --dir d --listen localhost:4222",
        Mistake::WrongAddress,
        "localhost:4222",
    ),
    (
        "serve --dir d --listen :4222",
        Mistake::WrongAddress,
        ":4222",
    ),
    (
        "serve --dir d --listen ::1:4222",
        Mistake::WrongAddress,
        "::1:4222",
    ),
    (
        "serve --dir d --accepts 1k --workers 0 --listen :4222",
        Mistake::WrongAddress,
        ":4222",
    ),
    (
        "serve --dir d --accepts 1k --workers 0",
        Mistake::WrongWorkers,
        "0",
    ),
    (
        "serve --dir d --listen 127.0.0.1:4222 --listen=[::1]:4222",
        Mistake::Twice,
        "--listen",
    ),
    (
        "serve --dir d --stream ORDERS --subject orders.*",
        Mistake::UnknownOption(Verb::Serve),
        "--stream",
    ),
    (
        "serve --dir d more",
        Mistake::UnknownOption(Verb::Serve),
        "more",
    ),
    (
        "serve --help",
        Mistake::UnknownOption(Verb::Serve),
        "--help",
    ),
    (
        "serve --dir d --dri=d",
        Mistake::UnknownOption(Verb::Serve),
        "--dri",
    ),
    (
        "pipe --dir d --workers 4",
        Mistake::UnknownOption(Verb::Pipe),
        "--workers",
    ),
    (
        "pipe --listen 127.0.0.1:4222",
        Mistake::UnknownOption(Verb::Pipe),
        "--listen",
    ),
    ("pipe --stream ORDERS", Mistake::NoSubject, ""),
    ("pipe --subject orders.*", Mistake::NoStream, ""),
    (
        "pipe --stream OR.DERS --subject orders.*",
        Mistake::WrongName,
        "OR.DERS",
    ),
    (
        "pipe --stream OR.DERS --subject orders..a",
        Mistake::WrongSubject,
        "orders..a",
    ),
    (
        "pipe --stream ORDERS --subject >",
        Mistake::WrongSubject,
        ">",
    ),
];

/// The words of the line.
fn words_of(alloc: Global, line: &str) -> Result<Vec<String>, NoMemory> {
    let mut words = Vec::new(alloc);
    for word in line.split(' ') {
        words.push(String::from_str(alloc, word)?)?;
    }
    Ok(words)
}

/// What the line says, if it is one of `serve`.
fn listening(alloc: Global, line: &str) -> Result<Option<Listening>, NoMemory> {
    let words = words_of(alloc, line)?;
    match read_words(alloc, words.as_slice()) {
        Ok(Command::Serve(listening)) => Ok(Some(listening)),
        Ok(Command::Pipe { .. }) | Err(WordsFault::Wrong(_)) => Ok(None),
        Err(WordsFault::NoMemory) => Err(NoMemory),
    }
}

#[test]
fn folder_alone(rt: HostRuntime) -> Result<(), Fail> {
    let alloc = rt.alloc();
    let said = listening(alloc, "serve --dir store")?.ok_or("it is a command")?;
    assert_eq!(rt; said.dir.as_str(), "store");
    assert_eq!(rt; said.listen, SocketAddr::from((Ipv4Addr::LOCALHOST, 4222)));
    assert_eq!(rt; said.workers, 16);
    assert_eq!(rt; said.accepts, AcceptLimit::Unlimited);
    assert_eq!(rt; said.host(alloc)?.as_slice(), b"127.0.0.1".as_slice());
    assert_eq!(rt; said.port(), 4222);
    Ok(())
}

#[test]
fn each_option(rt: HostRuntime) -> Result<(), Fail> {
    let alloc = rt.alloc();
    let line = "serve --accepts=9999999999999999999 --workers 032 --dir=a=b --listen [::1]:80";
    let said = listening(alloc, line)?.ok_or("it is a command")?;
    assert_eq!(rt; said.dir.as_str(), "a=b");
    assert_eq!(rt; said.listen, SocketAddr::from((Ipv6Addr::LOCALHOST, 80)));
    assert_eq!(rt; said.workers, 32);
    assert_eq!(rt;
        said.accepts,
        AcceptLimit::Connections(9_999_999_999_999_999_999)
    );
    assert_eq!(rt; said.host(alloc)?.as_slice(), b"::1".as_slice());
    assert_eq!(rt; said.port(), 80);
    Ok(())
}

#[test]
fn limits(rt: HostRuntime) -> Result<(), Fail> {
    let alloc = rt.alloc();
    let said = listening(
        alloc,
        "serve --workers=1 --accepts 0 --dir d --listen=0.0.0.0:0",
    )?
    .ok_or("it is a command")?;
    assert_eq!(rt; said.workers, 1);
    assert_eq!(rt; said.accepts, AcceptLimit::Unlimited);
    assert_eq!(rt; said.host(alloc)?.as_slice(), b"0.0.0.0".as_slice());
    assert_eq!(rt; said.port(), 0);
    Ok(())
}

/// Whether the words are refused for this mistake in this word.
fn is_refused(alloc: Global, words: &[String], mistake: Mistake, word: &str) -> bool {
    match read_words(alloc, words) {
        Err(WordsFault::Wrong(wrong)) => wrong.mistake == mistake && wrong.word == word,
        _ => false,
    }
}

#[test]
fn refusals(rt: HostRuntime) -> Result<(), Fail> {
    let alloc = rt.alloc();
    for (line, mistake, word) in REFUSED {
        let words = words_of(alloc, line)?;
        assert!(rt;
            is_refused(alloc, words.as_slice(), mistake, word),
            "{line}"
        );
    }
    assert!(rt; is_refused(alloc, &[], Mistake::NoCommand, ""));
    Ok(())
}
