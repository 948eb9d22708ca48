//! From a line to its published frame.

ghost use Rattle.std.specs.Prelude.{◌≡◌, ◌↔◌, ◌<◌, ◌&&◌, [], bytes_eq, IsTrue, IfOk, Ok};
ghost use Rattle.std.specs.Result.{result_ok};
ghost use Rattle.wire_out.specs.Codes.{is_code, is_field};
ghost use Rattle.wire_out.specs.Spelling.{HasTypes, InRange, IsSayable};
ghost use Rattle.wire_out.specs.declared.message.Frame.{Frame};
ghost use Rattle.text_core.specs.Lines.{line_of_frame, PrintsFrame};
ghost use Rattle.text_core.specs.Reading.{listed_of, state_of, band_of, straddle_of, collar_of, release_of, short_of, breaker_of, message_of, numbered_of, refused_of, frame_of, is_sayable, is_frame_in_range, is_line_of_frame, frame_in};

use crate::error::BadLine;
use crate::field_reading::{index, is_name, moment, name, number, number8, number16, price, word};
use crate::frame_printing::write_frame;
use crate::line::Line;
use crate::word_reading::{cause, is, level, phase, short_kind, straddle};
use wire_out::{Frame, Message, Stamped};

#[tactic(auto, unfolding(crate::specs::Reading::listed_of))]
fn listed(line: &[u8]) -> Option<Message>
    ensures { result ≡ listed_of line.now }
{
    let symbol = number16(word(line, 3))?;
    let name = name(word(line, 4))?;
    Some(Message::Listed { symbol, name })
}

#[tactic(auto, unfolding(crate::specs::Reading::state_of))]
fn state(line: &[u8]) -> Option<Message>
    ensures { result ≡ state_of line.now }
{
    let symbol = number16(word(line, 3))?;
    let phase = phase(word(line, 4))?;
    Some(Message::State { symbol, phase })
}

#[tactic(auto, unfolding(crate::specs::Reading::band_of))]
fn band(line: &[u8]) -> Option<Message>
    ensures { result ≡ band_of line.now }
{
    let symbol = number16(word(line, 3))?;
    let cause = cause(word(line, 4))?;
    let reference = price(word(line, 5))?;
    let lower = price(word(line, 6))?;
    let upper = price(word(line, 7))?;
    Some(Message::Band {
        symbol,
        cause,
        reference,
        lower,
        upper,
    })
}

#[tactic(auto, unfolding(crate::specs::Reading::straddle_of))]
fn straddle_state(line: &[u8]) -> Option<Message>
    ensures { result ≡ straddle_of line.now }
{
    let symbol = number16(word(line, 3))?;
    let on = straddle(word(line, 4))?;
    Some(Message::Straddle { symbol, on })
}

#[tactic(auto, unfolding(crate::specs::Reading::collar_of))]
fn collar(line: &[u8]) -> Option<Message>
    ensures { result ≡ collar_of line.now }
{
    let symbol = number16(word(line, 3))?;
    let round = number16(word(line, 4))?;
    let lower = price(word(line, 5))?;
    let upper = price(word(line, 6))?;
    Some(Message::Collar {
        symbol,
        round,
        lower,
        upper,
    })
}

#[tactic(auto, unfolding(crate::specs::Reading::release_of))]
fn release(line: &[u8]) -> Option<Message>
    ensures { result ≡ release_of line.now }
{
    let symbol = number16(word(line, 3))?;
    let price = price(word(line, 4))?;
    Some(Message::Release { symbol, price })
}

#[tactic(auto, unfolding(crate::specs::Reading::short_of))]
fn short(line: &[u8]) -> Option<Message>
    ensures { result ≡ short_of line.now }
{
    let symbol = number16(word(line, 3))?;
    let kind = short_kind(word(line, 4))?;
    Some(Message::Short { symbol, kind })
}

#[tactic(auto, unfolding(crate::specs::Reading::breaker_of))]
fn breaker(line: &[u8]) -> Option<Message>
    ensures { result ≡ breaker_of line.now }
{
    let level = level(word(line, 3))?;
    let index = index(word(line, 4))?;
    Some(Message::Breaker { level, index })
}

#[tactic(auto, unfolding(crate::specs::Reading::message_of))]
fn message(line: &[u8]) -> Option<Message>
    ensures { result ≡ message_of line.now }
{
    let kind = word(line, 2);
    if is(kind, "listed") {
        listed(line)
    } else if is(kind, "state") {
        state(line)
    } else if is(kind, "band") {
        band(line)
    } else if is(kind, "straddle") {
        straddle_state(line)
    } else if is(kind, "collar") {
        collar(line)
    } else if is(kind, "release") {
        release(line)
    } else if is(kind, "short") {
        short(line)
    } else if is(kind, "breaker") {
        breaker(line)
    } else if is(kind, "marketresume") {
        Some(Message::MarketResume)
    } else {
        None
    }
}

#[tactic(auto, unfolding(crate::specs::Reading::numbered_of))]
fn numbered(line: &[u8]) -> Option<Frame>
    ensures { result ≡ numbered_of line.now }
{
    let moment = moment(word(line, 1))?;
    let message = message(line)?;
    Some(Frame::Numbered {
        number: number(word(line, 0)),
        stamped: Stamped { moment, message },
    })
}

#[tactic(auto, unfolding(crate::specs::Reading::refused_of))]
fn refused(line: &[u8]) -> Option<Frame>
    ensures { result ≡ refused_of line.now }
{
    let code = number8(word(line, 2))?;
    let field = number8(word(line, 3))?;
    Some(Frame::Refused {
        frame_number: number(word(line, 1)),
        code,
        field,
    })
}

/// What a line is taken for: the frame that it prints, if it prints one, and else any.
#[tactic(auto, unfolding(crate::specs::Reading::frame_of))]
fn frame(line: &[u8]) -> Option<Frame>
    ensures { result ≡ frame_of line.now }
{
    let first = word(line, 0);
    if is(first, "hello") {
        Some(Frame::Hello {
            inputs: number(word(line, 1)),
            messages: number(word(line, 2)),
        })
    } else if is(first, "ack") {
        Some(Frame::Ack {
            input: number(word(line, 1)),
        })
    } else if is(first, "refused") {
        refused(line)
    } else {
        numbered(line)
    }
}

/// Whether a code is one of a refusal, and names that field.
fn is_refusal(code: u8, field: u8) -> bool
    ensures value { result ≡ (is_code code && is_field code field) }
    ensures tells { IsTrue result ↔ (IsTrue (is_code code) × IsTrue (is_field code field)) }
{
    match code {
        3 => 1 <= field && field <= 7,
        1..=9 => field == 0,
        _ => false,
    }
}

/// Whether a message is in the ranges that its types don't keep.
fn is_sayable(message: Message) -> bool
    ensures value { result ≡ is_sayable message }
    ensures tells { IsTrue result ↔ IsSayable message }
{
    match message {
        Message::Listed { name, .. } => is_name(name),
        _ => true,
    }
}

/// Whether a frame is in the ranges that its types don't keep.
fn is_in_range(f: &Frame) -> bool
    ensures value { result ≡ is_frame_in_range f.now }
    ensures tells { IsTrue result ↔ InRange f.now }
{
    match *f {
        Frame::Hello { .. } => true,
        Frame::Ack { input } => input > 0,
        Frame::Refused {
            frame_number,
            code,
            field,
        } => frame_number > 0 && is_refusal(code, field),
        Frame::Numbered { number, stamped } => number > 0 && is_sayable(stamped.message),
    }
}

/// Whether a line is that of a frame in its ranges, which is printed into the room.
fn is_line_of(room: &mut Line, line: &[u8], f: &Frame) -> bool
    requires empty { room.old ≡ [] }
    requires ranges { InRange f.now }
    ensures value { result ≡ bytes_eq line.now (line_of_frame f.now) }
    ensures types { HasTypes f.now }
{
    write_frame(room, f);
    line == room.as_slice()
}

/// Whether a line prints a frame.
fn prints(room: &mut Line, line: &[u8], f: &Frame) -> bool
    requires empty { room.old ≡ [] }
    ensures value { result ≡ is_line_of_frame line.now f.now }
    ensures tells { IsTrue result ↔ PrintsFrame line.now f.now }
{
    is_in_range(f) && is_line_of(room, line, f)
}

/// The published frame that a line prints, as `read_frame` answers; its line is printed once more into the room.
#[tactic(auto, unfolding(crate::specs::Reading::frame_in))]
pub fn read_frame_in(room: &mut Line, line: &[u8]) -> Result<Frame, BadLine>
    requires empty { room.old ≡ [] }
    ensures exact { result_ok result ≡ frame_in line.now }
    ensures found { IfOk result (PrintsFrame line.now) }
    ensures only { (f : Frame) → PrintsFrame line.now f → result ≡ Ok f }
{
    let Some(f) = frame(line) else {
        return Err(BadLine);
    };
    if prints(room, line, &f) {
        Ok(f)
    } else {
        Err(BadLine)
    }
}

/// The published frame that a line prints, without its newline; an error exactly where it prints none.
pub fn read_frame(line: &[u8]) -> Result<Frame, BadLine>
    ensures exact { result_ok result ≡ frame_in line.now }
    ensures found { IfOk result (PrintsFrame line.now) }
    ensures only { (f : Frame) → PrintsFrame line.now f → result ≡ Ok f }
{
    read_frame_in(&mut Line::new(), line)
}
