//! The words of the collector.
use collect_server::{CollectFault, Collecting, ServeFault, accept_call};
use std::alloc::{AllocError, Global};
use std::io;
use std::io::ErrorKind;
use std::test::Fail;

const USAGE: &str = "usage: warp_server collect PORT FOLDER [ORIGIN] [MEBIBYTES]";

// Words behind the program's name, and what they mean: port, folder, origin and limit.
const CALLS: &[(&[&str], &str)] = &[
    (&["collect", "8901", "f"], "8901 f none 67108864"),
    (&["collect", "1", "a b", "1"], "1 a b none 1048576"),
    (
        &["collect", "65535", "", "65535"],
        "65535  none 68718428160",
    ),
    (
        &["collect", "08901", "f", "https://a.example"],
        "8901 f https://a.example 67108864",
    ),
    (
        &["collect", "80", "f", "http://a", "00128"],
        "80 f http://a 134217728",
    ),
    (&[], USAGE),
    (&["collect"], USAGE),
    (&["collect", "80"], USAGE),
    (&["listen", "80", "f"], USAGE),
    (&["collect", "0", "f"], USAGE),
    (&["collect", "65536", "f"], USAGE),
    (&["collect", "+80", "f"], USAGE),
    (&["collect", "80", "f", "0"], USAGE),
    (&["collect", "80", "f", "65536"], USAGE),
    (&["collect", "80", "f", ""], USAGE),
    (&["collect", "80", "f", "a.example"], USAGE),
    (&["collect", "80", "f", "https://a/"], USAGE),
    (&["collect", "80", "f", "https://A"], USAGE),
    (&["collect", "80", "f", "https://a:443"], USAGE),
    (&["collect", "80", "f", "https://"], USAGE),
    (&["collect", "80", "f", "64", "https://a"], USAGE),
    (&["collect", "80", "f", "https://a", "https://b"], USAGE),
    (&["collect", "80", "f", "https://a", "64", ""], USAGE),
];

fn called(alloc: Global, words: &[&str]) -> Result<Vec<String>, AllocError> {
    let mut called = Vec::new(alloc);
    called.push(String::from_str(alloc, "warp_server")?)?;
    for word in words {
        called.push(String::from_str(alloc, word)?)?;
    }
    Ok(called)
}

fn origin_shown(how: &Collecting) -> &str {
    match &how.origin {
        Some(origin) => origin.as_str(),
        None => "none",
    }
}

fn shown(alloc: Global, call: Result<Collecting, CollectFault>) -> Result<String, AllocError> {
    match call {
        Err(fault) => String::from_str(alloc, fault.line()),
        Ok(how) => {
            let (port, limit) = (how.port, how.limit);
            let folder = how.folder.as_str();
            let origin = origin_shown(&how);
            format!(in alloc; "{port} {folder} {origin} {limit}")
        }
    }
}

#[test]
fn words_mean_what_they_say(rt: HostRuntime) -> Result<(), Fail> {
    let alloc = rt.alloc();
    for &(words, meaning) in CALLS {
        let said = shown(alloc, accept_call(Ok(called(alloc, words)?.into_iter())))?;
        assert!(rt; said.as_str() == meaning, "{said}, not {meaning}");
    }
    Ok(())
}

#[test]
fn a_port_is_of_this_machine_alone(rt: HostRuntime) -> Result<(), Fail> {
    let words = called(rt.alloc(), &["collect", "8901", "f"])?;
    let Ok(how) = accept_call(Ok(words.into_iter())) else {
        return Err(Fail::new("not understood"));
    };
    let address = how.address();
    assert!(rt; address.ip().is_loopback() && address.port() == 8901);
    Ok(())
}

#[test]
fn want_of_memory_is_told_as_that(rt: HostRuntime) -> Result<(), Fail> {
    let unread = io::Error::from(ErrorKind::InvalidData);
    assert!(rt; accept_call(Err(unread)).err() == Some(CollectFault::Words));
    let refused = io::Error::from(ErrorKind::OutOfMemory);
    assert!(rt; accept_call(Err(refused)).err() == Some(CollectFault::NoMemory));
    let served = ServeFault::from(io::Error::from(ErrorKind::OutOfMemory));
    assert!(rt; served.code() == 5 && served.line() == "no memory");
    let taken = ServeFault::from(io::Error::from(ErrorKind::AddrInUse));
    assert!(rt; taken.code() == 6 && taken.line() == "the port can't be used");
    Ok(())
}
