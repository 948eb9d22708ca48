//! What is sent for one unit of a stream: the line of a frame, or the frame of a line.

ghost use Rattle.std.specs.Prelude.{◌≡◌, ◌≤◌, ◌++◌, ◌∷◌, [], Some, None, if◌then◌else◌, length};
ghost use Rattle.text_core.specs.declared.kind.Kind.TheVariants as kinds;
ghost use Rattle.text_core.specs.declared.task.Task.TheVariants as tasks;
ghost use Rattle.text_core.specs.Streams.{output_of};

use crate::frame_printing::write_frame;
use crate::frame_reading::read_frame_in;
use crate::kind::Kind;
use crate::line::Line;
use crate::record_printing::write_record;
use crate::record_reading::read_record_in;
use crate::task::Task;
use wire_in::{decode, encode};
use wire_out::{get_frame, put_frame};

/// How many bytes a frame may take.
const FRAME: usize = 64;

/// The most bytes of a line.
const LINE: usize = 255;

/// Writes the line of the record that a body spells, with its newline. Answers whether it spells one.
#[tactic(auto, unfolding(crate::specs::Streams::output_of))]
fn write_record_line(output: &mut Line, body: &[u8]) -> bool
    requires empty { output.old ≡ [] }
    requires short { length body.now ≤ 255 }
    ensures { output_of tasks.Print kinds.Records body.now ≡ (if result then Some output.new else None) }
{
    let Ok(x) = decode(body) else {
        return false;
    };
    write_record(output, &x);
    output.end();
    true
}

/// Writes the line of the published frame that a body spells, with its newline. Answers whether it spells one.
#[tactic(auto, unfolding(crate::specs::Streams::output_of))]
fn write_frame_line(output: &mut Line, body: &[u8]) -> bool
    requires { output.old ≡ [] }
    ensures { output_of tasks.Print kinds.Published body.now ≡ (if result then Some output.new else None) }
{
    let Ok(f) = get_frame(body) else {
        return false;
    };
    write_frame(output, &f);
    output.end();
    true
}

/// Writes the frame of the record that a line prints. Answers whether it prints one.
#[tactic(auto, unfolding(crate::specs::Streams::output_of))]
fn pack_record(output: &mut Line, line: &[u8]) -> bool
    requires { output.old ≡ [] }
    ensures { output_of tasks.Pack kinds.Records line.now ≡ (if result then Some output.new else None) }
{
    if line.len() > LINE {
        return false;
    }
    let Ok(x) = read_record_in(output, line) else {
        return false;
    };
    output.clear();
    let mut cell = [0; FRAME];
    let len = encode(&x, &mut cell);
    output.append(&cell[..len]);
    true
}

/// Writes the published frame that a line prints. Answers whether it prints one.
#[tactic(auto, unfolding(crate::specs::Streams::output_of))]
fn pack_frame(output: &mut Line, line: &[u8]) -> bool
    requires { output.old ≡ [] }
    ensures { output_of tasks.Pack kinds.Published line.now ≡ (if result then Some output.new else None) }
{
    if line.len() > LINE {
        return false;
    }
    let Ok(f) = read_frame_in(output, line) else {
        return false;
    };
    output.clear();
    let mut cell = [0; FRAME];
    let len = put_frame(&f, &mut cell);
    output.append(&cell[..len]);
    true
}

/// Writes what is sent for a unit. Answers whether the unit has a value.
pub fn write_output(output: &mut Line, task: Task, kind: Kind, unit: &[u8]) -> bool
    requires empty { output.old ≡ [] }
    requires short { task ≡ tasks.Print → length unit.now ≤ 255 }
    ensures { output_of task kind unit.now ≡ (if result then Some output.new else None) }
{
    match (task, kind) {
        (Task::Print, Kind::Records) => write_record_line(output, unit),
        (Task::Print, Kind::Published) => write_frame_line(output, unit),
        (Task::Pack, Kind::Records) => pack_record(output, unit),
        (Task::Pack, Kind::Published) => pack_frame(output, unit),
    }
}
