//! Tests of addresses as unix(7) has them, and of a datagram that is heard.

use libc::net as c;
use notify::{Notifier, address_of};
use os::FromRawFd;
use std::os::fd::{AsRawFd, OwnedFd};
use std::process;
use std::test::Fail;

#[test]
fn a_path_ends_with_a_zero(rt: HostRuntime) -> Result<(), Fail> {
    let (raw, len) = address_of("/run/systemd/notify").ok_or("no address")?;
    let expected = b"\x01\0/run/systemd/notify\0".as_slice();
    assert_eq!(rt; raw.get(..len as usize), Some(expected));
    Ok(())
}

#[test]
fn an_abstract_name_begins_with_a_zero(rt: HostRuntime) -> Result<(), Fail> {
    let (raw, len) = address_of("@/org/notify").ok_or("no address")?;
    let expected = b"\x01\0\0/org/notify".as_slice();
    assert_eq!(rt; raw.get(..len as usize), Some(expected));
    Ok(())
}

#[test]
fn other_texts_write_no_address(rt: HostRuntime) {
    for text in ["", "notify", "vsock:2:1234", "./notify"] {
        assert!(rt; address_of(text).is_none(), "{text}");
    }
}

#[test]
fn a_notice_is_heard_in_one_datagram(rt: HostRuntime) -> Result<(), Fail> {
    let text = format!(in rt.alloc(); "@reflectord-notify-{}", process::id(rt.process()))?;
    let (raw, len) = address_of(text.as_str()).ok_or("no address")?;
    let fd = unsafe { c::socket(c::AF_UNIX, c::SOCK_DGRAM | c::SOCK_CLOEXEC, 0) };
    assert!(rt; fd >= 0);
    let systemd = unsafe { OwnedFd::from_raw_fd(fd) };
    assert_eq!(rt; unsafe { c::bind(systemd.as_raw_fd(), &raw, len) }, 0);
    let notifier = Notifier::new(&rt, text.as_str())?;
    notifier.send("READY=1\nSTATUS=no host; 0 of 8 viewers\n")?;
    let mut heard = [0u8; 64];
    let count = unsafe { c::recv(systemd.as_raw_fd(), &mut heard, 0) };
    let heard = heard.get(..usize::try_from(count).unwrap_or(0));
    assert_eq!(rt;
        heard,
        Some(b"READY=1\nSTATUS=no host; 0 of 8 viewers\n".as_slice())
    );
    drop(systemd);
    assert!(rt; notifier.send("STATUS=no host; 0 of 8 viewers\n").is_err());
    Ok(())
}
