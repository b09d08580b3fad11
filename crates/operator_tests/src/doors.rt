//! Tests of lines that are requests and of lines that aren't, and of a sequence of comings, leavings and requests.

use roles::Role;
use run_control::{Doors, Entry, Outcome, PlaceState, Request, StateForm};
use std::net::{IpAddr, Ipv4Addr, Ipv6Addr, SocketAddr};
use std::test::Fail;

#[test]
fn lines_are_read(rt: HostRuntime) {
    for (line, request) in [
        ("state", Request::State(StateForm::Text)),
        ("state json", Request::State(StateForm::Json)),
        ("drain", Request::Drain),
        ("undrain", Request::Undrain),
        ("next", Request::Next),
        ("stop", Request::Stop),
        ("end 1", Request::End(1)),
        ("end 64", Request::End(64)),
        ("end 0", Request::End(0)),
        ("end 18446744073709551615", Request::End(u64::MAX)),
    ] {
        assert_eq!(rt; Request::read(line), Some(request), "{line}");
    }
}

#[test]
fn calls_are_read(rt: HostRuntime) {
    let v4 = |a, b, d, e, port| SocketAddr::new(IpAddr::V4(Ipv4Addr::new(a, b, d, e)), port);
    let v6 = |last, port| {
        let ip = Ipv6Addr::new(0x2001, 0xdb8, 0, 0, 0, 0, 0, last);
        SocketAddr::new(IpAddr::V6(ip), port)
    };
    for (line, role, address) in [
        (
            "call full 192.0.2.7:5500",
            Role::Full,
            v4(192, 0, 2, 7, 5500),
        ),
        ("call view 127.0.0.1:1", Role::View, v4(127, 0, 0, 1, 1)),
        (
            "call view 192.0.2.255:65535",
            Role::View,
            v4(192, 0, 2, 255, 65535),
        ),
        ("call full [2001:db8::7]:5500", Role::Full, v6(7, 5500)),
        ("call view [2001:DB8:0:0::9]:5500", Role::View, v6(9, 5500)),
    ] {
        assert_eq!(rt;
            Request::read(line),
            Some(Request::Call(role, address)),
            "{line}"
        );
    }
}

#[test]
fn other_calls_are_not(rt: HostRuntime) {
    for line in [
        "call",
        "call ",
        "call full",
        "call full ",
        "call 192.0.2.7:5500",
        "call 192.0.2.7:5500 full",
        "call both 192.0.2.7:5500",
        "call Full 192.0.2.7:5500",
        "call full  192.0.2.7:5500",
        "call full 192.0.2.7:5500 ",
        "call full 192.0.2.7",
        "call full 192.0.2.7:",
        "call full 192.0.2.7:0",
        "call view [2001:db8::7]:0",
        "call full 192.0.2.7:65536",
        "call full 192.0.2.256:5500",
        "call full 2001:db8::7:5500",
        "call full [2001:db8::7]",
        "call full [192.0.2.7]:5500",
        "call full wall.example:5500",
        "call full localhost:5500",
        "call full :5500",
        "calls full 192.0.2.7:5500",
    ] {
        assert_eq!(rt; Request::read(line), None, "{line}");
    }
}

#[test]
fn other_lines_are_not(rt: HostRuntime) {
    for line in [
        "",
        " ",
        "stat",
        "state ",
        " state",
        "state  json",
        "state text",
        "State",
        "STOP",
        "stop\r",
        "stop\n",
        "stop now",
        "end",
        "end ",
        "end  1",
        "end 1 ",
        "end +1",
        "end -1",
        "end 01",
        "end 1.",
        "end 0x1",
        "end one",
        "end 18446744073709551616",
        "drain 1",
        "undrained",
        "next 1",
        "quit",
    ] {
        assert_eq!(rt; Request::read(line), None, "{line}");
    }
}

/// A request for the viewer that listens at an address.
fn a_call() -> Request {
    let ip = IpAddr::V4(Ipv4Addr::new(192, 0, 2, 7));
    Request::Call(Role::View, SocketAddr::new(ip, 5500))
}

#[test]
fn a_drained_door_lets_nobody_in(rt: HostRuntime) -> Result<(), Fail> {
    let mut doors = Doors::new(rt.alloc(), 3)?;
    assert_eq!(rt; (doors.places(), doors.free()), (3, 3));
    assert!(rt; doors.enter(2));
    assert!(rt; !doors.enter(2));
    assert!(rt; !doors.enter(0) && !doors.enter(4));
    assert_eq!(rt; doors.ask(Request::Drain), Outcome::Done);
    assert_eq!(rt; doors.entry(), Entry::Drained);
    assert!(rt; !doors.enter(1));
    assert_eq!(rt; doors.place(2), Some(PlaceState::Taken));
    assert!(rt; !doors.is_asked(2));
    doors.leave(2);
    assert!(rt; !doors.enter(2));
    assert_eq!(rt; doors.ask(a_call()), Outcome::Drained);
    assert_eq!(rt; doors.ask(Request::Undrain), Outcome::Done);
    assert_eq!(rt; doors.ask(a_call()), Outcome::Done);
    assert_eq!(rt; (doors.place(1), doors.free()), (Some(PlaceState::Free), 3));
    assert!(rt; doors.enter(2) && doors.enter(1));
    assert_eq!(rt; doors.free(), 1);
    Ok(())
}

#[test]
fn one_is_asked_to_leave_and_then_all(rt: HostRuntime) -> Result<(), Fail> {
    let mut doors = Doors::new(rt.alloc(), 4)?;
    for number in 1..4 {
        assert!(rt; doors.enter(number));
    }
    assert_eq!(rt; doors.ask(Request::End(2)), Outcome::Done);
    assert_eq!(rt; doors.ask(Request::End(2)), Outcome::Done);
    assert_eq!(rt; doors.ask(Request::End(4)), Outcome::Nobody);
    assert_eq!(rt; doors.ask(Request::End(5)), Outcome::NoPlace);
    assert_eq!(rt; doors.ask(Request::End(0)), Outcome::NoPlace);
    assert_eq!(rt; doors.place(2), Some(PlaceState::Leaving));
    assert_eq!(rt;
        (doors.is_asked(1), doors.is_asked(2), doors.is_asked(3)),
        (false, true, false)
    );
    doors.leave(2);
    assert!(rt; doors.enter(2) && !doors.is_asked(2));
    assert_eq!(rt; doors.ask(Request::Next), Outcome::Done);
    assert!(rt; !doors.is_asked(1));
    assert_eq!(rt; doors.ask(Request::Stop), Outcome::Done);
    assert_eq!(rt;
        (doors.is_asked(1), doors.is_asked(3), doors.is_asked(4)),
        (true, true, false)
    );
    assert_eq!(rt; doors.ask(Request::Next), Outcome::Ending);
    assert_eq!(rt; doors.ask(a_call()), Outcome::Ending);
    assert_eq!(rt; doors.ask(Request::Undrain), Outcome::Ending);
    assert_eq!(rt; doors.ask(Request::Drain), Outcome::Done);
    assert_eq!(rt; doors.entry(), Entry::Closed);
    doors.leave(1);
    assert!(rt; !doors.enter(1) && !doors.enter(4));
    assert_eq!(rt; doors.ask(Request::State(StateForm::Text)), Outcome::Done);
    Ok(())
}
