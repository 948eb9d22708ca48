//! The lines of a cross, sent.

ghost use Rattle.std.specs.Prelude.{◌≡◌, ◌≤◌, ◌++◌, ◌∷◌, [], ℕ, List, Option, OnOk, codes, length, map};
ghost use Rattle.std.specs.Io.KnownBytes.{append_known};
ghost use Rattle.host_core.specs.Outside.{Elapses};
ghost use Rattle.stream_core.specs.Outcomes.{Sent};
ghost use Rattle.stream_core.specs.Pending.{Expects, SendsPrefix};
ghost use Rattle.wire_in.specs.declared.record.Record.TheVariants as records;
ghost use Rattle.text_core.specs.Lines.{line_of_record};
ghost use Rattle.auction_core.specs.Lines.{line_of_row, number_line};
ghost use Rattle.auction_core.specs.Texts.{cross_lines, text_of_lines};
ghost use Rattle.auction_core.specs.InternalSending.{Appends, head_text};

use crate::auction::Auction;
use cross_core::{Crossed, Row};
use host_core::{Fault, Host};
use stream_core::Outbox;
use text_core::{Line, write_record};
use wire_in::Record;

/// Appends a line with its newline to what waits.
fn append_line<H: Host>(outbox: &mut Outbox, host: &mut H, line: &mut Line) -> Result<(), Fault>
    requires short { length line.old ≤ 240 }
    ensures appends { Appends (line.old ++ 10 ∷ []) result outbox.old outbox.new (H.outside host.old) (H.outside host.new) }
{
    line.end();
    outbox.append_bytes(host, line.as_slice())
}

/// Appends the line of the cross as an indication.
fn append_indication<H: Host>(
    outbox: &mut Outbox,
    host: &mut H,
    auction: &Auction,
    crossed: &Crossed,
) -> Result<(), Fault>
    ensures appends { Appends (line_of_record (records.Indication auction.now.moment auction.now.symbol crossed.now.price crossed.now.left) ++ 10 ∷ []) result outbox.old outbox.new (H.outside host.old) (H.outside host.new) }
{
    let mut line = Line::new();
    let indication = Record::Indication {
        moment: auction.moment,
        symbol: auction.symbol,
        price: crossed.price,
        unmatched: crossed.left,
    };
    write_record(&mut line, &indication);
    append_line(outbox, host, &mut line)
}

/// Appends a line of a word and a number.
fn append_number<H: Host>(
    outbox: &mut Outbox,
    host: &mut H,
    word: &str,
    n: u64,
) -> Result<(), Fault>
    requires { length word.now ≤ 24 }
    ensures appends { Appends (number_line word.now n ++ 10 ∷ []) result outbox.old outbox.new (H.outside host.old) (H.outside host.new) }
{
    let mut line = Line::new();
    line.begin(word);
    line.number(n);
    append_line(outbox, host, &mut line)
}

/// Appends the line of a row.
fn append_row<H: Host>(outbox: &mut Outbox, host: &mut H, row: &Row) -> Result<(), Fault>
    ensures appends { Appends (line_of_row row.now ++ 10 ∷ []) result outbox.old outbox.new (H.outside host.old) (H.outside host.new) }
{
    let mut line = Line::new();
    line.begin("row");
    line.price(row.price);
    line.number(row.buy);
    line.number(row.sell);
    append_line(outbox, host, &mut line)
}

/// Appends the lines of rows.
fn append_rows<H: Host>(outbox: &mut Outbox, host: &mut H, rows: &[Row]) -> Result<(), Fault>
    ensures appends { Appends (text_of_lines (map line_of_row rows.now)) result outbox.old outbox.new (H.outside host.old) (H.outside host.new) }
{
    for row in rows {
        append_row(outbox, host, row)?;
    }
    Ok(())
}

/// Appends the lines of what each order gets.
fn append_fills<H: Host>(outbox: &mut Outbox, host: &mut H, fills: &[u32]) -> Result<(), Fault>
    ensures appends { Appends (text_of_lines (map (number_line (codes "fill")) fills.now)) result outbox.old outbox.new (H.outside host.old) (H.outside host.new) }
{
    for fill in fills {
        append_number(outbox, host, "fill", u64::from(*fill))?;
    }
    Ok(())
}

/// Appends the lines that come before the rows.
fn append_head<H: Host>(
    outbox: &mut Outbox,
    host: &mut H,
    auction: &Auction,
    crossed: &Crossed,
) -> Result<(), Fault>
    ensures appends { Appends (head_text auction.now crossed.now) result outbox.old outbox.new (H.outside host.old) (H.outside host.new) }
{
    append_indication(outbox, host, auction, crossed)?;
    append_number(outbox, host, "volume", crossed.volume)?;
    append_number(outbox, host, "imbalance", crossed.imbalance)
}

/// Appends the lines of a cross.
fn append_cross<H: Host>(
    outbox: &mut Outbox,
    host: &mut H,
    auction: &Auction,
    crossed: &Crossed,
    fills: &[u32],
) -> Result<(), Fault>
    ensures appends { Appends (text_of_lines (cross_lines auction.now crossed.now fills.now)) result outbox.old outbox.new (H.outside host.old) (H.outside host.new) }
{
    append_head(outbox, host, auction, crossed)?;
    append_rows(outbox, host, crossed.rows.list())?;
    append_fills(outbox, host, fills)
}

/// Sends the lines of a cross.
pub fn send_cross<H: Host>(
    outbox: &mut Outbox,
    host: &mut H,
    auction: &Auction,
    crossed: &Crossed,
    fills: &[u32],
) -> Result<(), Fault>
    requires empty { outbox.old ≡ [] }
    ensures sent { OnOk result ((H.outside host.new).sent ≡ append_known (H.outside host.old).sent (text_of_lines (cross_lines auction.now crossed.now fills.now))) }
    ensures moments { Elapses (H.outside host.old) (H.outside host.new) (SendsPrefix (H.outside host.old).sent (text_of_lines (cross_lines auction.now crossed.now fills.now)) (H.outside host.old)) }
    ensures outside { Sent result (H.outside host.old) (H.outside host.new) }
{
    append_cross(outbox, host, auction, crossed, fills)?;
    outbox.flush(host)
}
