//! Lines that are told on an output with little room.
use rig_core::Rig;
use std::io::Cursor;
use system_adapters::FileRig;

#[test]
fn a_line_past_the_room_of_the_output_fails(rt: HostRuntime) {
    let mut out = Cursor::new([b'.'; 12]);
    let mut rig = FileRig::new(&rt, "absent.img", &mut out);
    assert!(rt; rig.tell(b"1 LINE\n").is_ok() && rig.tell(b"2 LINE\n").is_err());
    drop(rig);
    assert!(rt; *out.get_ref() == *b"1 LINE\n2 LIN");
}
