//! Told lines of every kind of reply: statuses of ports, the end of a run, the largest numbers.
ghost use Rattle.std.specs.Prelude.{◌≤◌};

use apex_types::{Reply, ReturnCode, Values};
use call_script::{fault_line, reply_line};

/// Whether the reply of a call that was carried out is told so.
fn is_told(number: u32, values: Values, told: &[u8]) -> bool
    requires { number ≤ 20000 }
{
    let reply = Reply {
        code: ReturnCode::NoError,
        errno: None,
        values,
    };
    reply_line(number, &reply).bytes() == told
}

/// Whether the statuses of a source port and of an empty destination port are told so.
fn are_port_statuses(size: u32, refresh: u32, source: &[u8], empty: &[u8]) -> bool {
    is_told(1, Values::SourceStatus { size, refresh }, source)
        && is_told(2, Values::EmptyStatus { size, refresh }, empty)
}

#[test]
fn statuses_of_ports_are_told(rt: HostRuntime) {
    let source = b"1 NO_ERROR - SOURCE 4 10\n";
    let empty = b"2 NO_ERROR - DESTINATION 4 10 EMPTY_PORT\n";
    assert!(rt; are_port_statuses(4, 10, source, empty));
}

#[test]
fn the_largest_numbers_are_told(rt: HostRuntime) {
    let values = Values::Number(4_294_967_295);
    assert!(rt; is_told(20_000, values, b"20000 NO_ERROR - 4294967295\n"));
}

#[test]
fn the_end_of_a_run_is_told(rt: HostRuntime) {
    assert!(rt; fault_line(1).bytes() == b"1 NOT_AVAILABLE EIO HALTED\n".as_slice());
}
