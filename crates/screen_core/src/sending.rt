//! The lines of rows, sent one after the other.

ghost use Rattle.std.specs.Prelude.{◌≡◌, ◌≤◌, [], ℕ, List, Option, IfOk, OnOk};
ghost use Rattle.std.specs.List.{flat_map};
ghost use Rattle.std.specs.String.{string_capacity};
ghost use Rattle.std.specs.Io.KnownBytes.{append_known};
ghost use Rattle.host_core.specs.Outside.{Elapses};
ghost use Rattle.stream_core.specs.Outcomes.{Sent};
ghost use Rattle.stream_core.specs.Pending.{Expects, SendsPrefix};
ghost use Rattle.screen_core.specs.Rows.{row_line};
ghost use Rattle.screen_core.specs.InternalDesk.{HasRoom};

use crate::row::{Row, write_row};
use host_core::{Fault, Host};
use price_core::NoMemory;
use rulebook::MOST_NAMES;
use std::alloc::Global;
use stream_core::Outbox;

/// How many bytes a line has room for.
const LINE: usize = 256;

/// The rows of all names, and the line of one of them.
#[derive(Drop)]
pub struct Pages {
    pub rows: Vec<Row>,
    pub line: String,
}

impl Pages {
    /// The room for all names, with no rows.
    pub fn new(alloc: Global) -> Result<Pages, NoMemory>
        ensures { IfOk result HasRoom }
    {
        let rows = Vec::with_capacity(alloc, MOST_NAMES)?;
        let line = String::with_capacity(alloc, LINE)?;
        Ok(Pages { rows, line })
    }
}

/// Sends the lines of rows. Each is written in the room of one line.
pub fn send_rows<H: Host>(
    outbox: &mut Outbox,
    host: &mut H,
    rows: &[Row],
    line: &mut String,
) -> Result<(), Fault>
    requires { 200 ≤ string_capacity line.old }
    ensures sent { (begin : Option (List ℕ)) → Expects begin (H.outside host.old).sent outbox.old []
        → OnOk result ((H.outside host.new).sent ≡ append_known begin (flat_map row_line rows.now)) }
    ensures moments { (begin : Option (List ℕ)) → Expects begin (H.outside host.old).sent outbox.old []
        → Elapses (H.outside host.old) (H.outside host.new) (SendsPrefix begin (flat_map row_line rows.now) (H.outside host.old)) }
    ensures outside { Sent result (H.outside host.old) (H.outside host.new) }
{
    for row in rows {
        write_row(row, line);
        outbox.append_bytes(host, line.as_bytes())?;
    }
    outbox.flush(host)
}
