//! Lines that are written, by the table of schedule lines.

ghost use Rattle.std.specs.Prelude.{IsTrue};
ghost use Rattle.sx_trace.specs.ValidNames.{are_valid};
ghost use Rattle.sx_sched.specs.Seen.{line_of};
ghost use Rattle.sx_sched.specs.InForm.{IsLine, IsWritten};

use std::process::Abort;
use sx_sched::lines::Line;
use sx_sched::write_line;
use sx_trace::names::Names;

/// Whether the line is written as this text.
fn is_written(rt: &impl Abort, names: &Names, line: &Line, text: &[u8])
    requires valid { IsTrue (are_valid names.now) }
    requires kind { IsWritten (line_of line.now) }
    requires in_form { IsLine names.now (line_of line.now) }
{
    let mut into = [0; 128];
    let length = write_line(names, line, &mut into);
    assert!(rt; into.get(..length) == Some(text));
}

pub(crate) fn are_written(rt: &impl Abort, names: &Names) {
    let counted = names.nodes.len() == 2 && names.modules.len() == 3 && names.devices.len() == 2;
    assert!(rt; names.valid() && counted);
    if names.valid() && counted {
        is_written(rt, names, &Line::Load { module: 1 }, b"load logic");
        is_written(rt, names, &Line::Ask { module: 2 }, b"ask lamp");
        let (boot, packet) = (0, 4_294_967_295);
        let answer = Line::Answer {
            module: 0,
            boot,
            packet,
        };
        is_written(rt, names, &answer, b"answer eye 0 4294967295");
        let (packet, node, at) = (10, 1, 0x300);
        is_written(
            rt,
            names,
            &Line::Give { packet, node, at },
            b"give 10 b 0x300",
        );
        let (node, at, len) = (0, 0xfffe, 384);
        is_written(
            rt,
            names,
            &Line::Take { node, at, len },
            b"take a 0xfffe 384",
        );
        let call = Line::Call {
            module: 2,
            entry: 65_535,
            input: 0,
            output: 0x4a,
        };
        is_written(rt, names, &call, b"call lamp 65535 0x0 0x4a");
    }
}

pub(crate) fn a_sense_is_written(rt: &impl Abort, names: &Names) {
    let is_sensor = names.sensors.first() == Some(&true);
    assert!(rt; names.valid() && is_sensor && names.devices.len() == 2);
    if names.valid() && is_sensor && names.devices.len() == 2 {
        let (device, value) = (0, 32_767);
        is_written(
            rt,
            names,
            &Line::Sense { device, value },
            b"sense light 32767",
        );
    }
}
