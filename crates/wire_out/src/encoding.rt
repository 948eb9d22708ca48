//! From a frame to its bytes.

ghost use Rattle.std.specs.Prelude.{◌≡◌, ◌≤◌, ◌∷◌, ◌++◌, Some};
ghost use Rattle.std.specs.Int.{w64, to_be_bytes};
ghost use Rattle.session_core.specs.Moments.{IsMoment};
ghost use Rattle.wire_core.specs.Frames.{Frames, Puts, framed};
ghost use Rattle.wire_out.specs.Reading.{frame_of};
ghost use Rattle.wire_out.specs.Spelling.{InRange, HasTypes, IsTyped, body_of, numbered_body, spelling};
ghost use Rattle.wire_out.specs.declared.message.Message.TheVariants as messages;
ghost use Rattle.wire_out.specs.declared.message.Frame.TheVariants as frames;

use crate::code::{cause_byte, kind_byte, level_byte, phase_byte, straddle_byte};
use crate::message::{Frame, Message, ShortKind, Stamped};
use price_core::{Cause, Index, Price};
use session_core::{Level, Moment, Phase};
use wire_core::{put, put_u16, put_u32, put_u64};

/// Writes what a numbered message begins with: its length byte, its type byte, its number and its moment.
fn put_head(into: &mut [u8; 64], len: u8, kind: u8, number: u64, moment: Moment) -> usize
    ensures moment { IsMoment moment }
    ensures head { Puts (len ∷ kind ∷ to_be_bytes w64 number ++ to_be_bytes w64 moment) 0 into.old result into.new }
{
    let at = put(into, 0, &[len, kind]);
    let at = put_u64(into, at, number);
    put_u64(into, at, moment.nanos())
}

fn put_listed(into: &mut [u8; 64], number: u64, moment: Moment, symbol: u16, name: [u8; 8]) -> usize
    ensures moment { IsMoment moment }
    ensures types { IsTyped (messages.Listed symbol name) }
    ensures frame { Frames (framed (numbered_body number moment (messages.Listed symbol name))) into.old result into.new }
{
    let at = put_head(into, 27, 0x11, number, moment);
    let at = put_u16(into, at, symbol);
    put(into, at, &name)
}

fn put_state(into: &mut [u8; 64], number: u64, moment: Moment, symbol: u16, phase: Phase) -> usize
    ensures moment { IsMoment moment }
    ensures types { IsTyped (messages.State symbol phase) }
    ensures frame { Frames (framed (numbered_body number moment (messages.State symbol phase))) into.old result into.new }
{
    let at = put_head(into, 20, 0x12, number, moment);
    let at = put_u16(into, at, symbol);
    put(into, at, &[phase_byte(phase)])
}

fn put_band(
    into: &mut [u8; 64],
    number: u64,
    moment: Moment,
    symbol: u16,
    cause: Cause,
    reference: Price,
    lower: Price,
    upper: Price,
) -> usize
    ensures moment { IsMoment moment }
    ensures types { IsTyped (messages.Band symbol cause reference lower upper) }
    ensures frame { Frames (framed (numbered_body number moment (messages.Band symbol cause reference lower upper))) into.old result into.new }
{
    let at = put_head(into, 44, 0x13, number, moment);
    let at = put_u16(into, at, symbol);
    let at = put(into, at, &[cause_byte(cause)]);
    let at = put_u64(into, at, reference.units());
    let at = put_u64(into, at, lower.units());
    put_u64(into, at, upper.units())
}

fn put_straddle(into: &mut [u8; 64], number: u64, moment: Moment, symbol: u16, on: bool) -> usize
    ensures moment { IsMoment moment }
    ensures types { IsTyped (messages.Straddle symbol on) }
    ensures frame { Frames (framed (numbered_body number moment (messages.Straddle symbol on))) into.old result into.new }
{
    let at = put_head(into, 20, 0x14, number, moment);
    let at = put_u16(into, at, symbol);
    put(into, at, &[straddle_byte(on)])
}

fn put_collar(
    into: &mut [u8; 64],
    number: u64,
    moment: Moment,
    symbol: u16,
    round: u16,
    lower: Price,
    upper: Price,
) -> usize
    ensures moment { IsMoment moment }
    ensures types { IsTyped (messages.Collar symbol round lower upper) }
    ensures frame { Frames (framed (numbered_body number moment (messages.Collar symbol round lower upper))) into.old result into.new }
{
    let at = put_head(into, 37, 0x15, number, moment);
    let at = put_u16(into, at, symbol);
    let at = put_u16(into, at, round);
    let at = put_u64(into, at, lower.units());
    put_u64(into, at, upper.units())
}

fn put_release(into: &mut [u8; 64], number: u64, moment: Moment, symbol: u16, price: Price) -> usize
    ensures moment { IsMoment moment }
    ensures types { IsTyped (messages.Release symbol price) }
    ensures frame { Frames (framed (numbered_body number moment (messages.Release symbol price))) into.old result into.new }
{
    let at = put_head(into, 27, 0x16, number, moment);
    let at = put_u16(into, at, symbol);
    put_u64(into, at, price.units())
}

fn put_short(
    into: &mut [u8; 64],
    number: u64,
    moment: Moment,
    symbol: u16,
    kind: ShortKind,
) -> usize
    ensures moment { IsMoment moment }
    ensures types { IsTyped (messages.Short symbol kind) }
    ensures frame { Frames (framed (numbered_body number moment (messages.Short symbol kind))) into.old result into.new }
{
    let at = put_head(into, 20, 0x17, number, moment);
    let at = put_u16(into, at, symbol);
    put(into, at, &[kind_byte(kind)])
}

fn put_breaker(
    into: &mut [u8; 64],
    number: u64,
    moment: Moment,
    level: Level,
    index: Index,
) -> usize
    ensures moment { IsMoment moment }
    ensures types { IsTyped (messages.Breaker level index) }
    ensures frame { Frames (framed (numbered_body number moment (messages.Breaker level index))) into.old result into.new }
{
    let at = put_head(into, 22, 0x18, number, moment);
    let at = put(into, at, &[level_byte(level)]);
    put_u32(into, at, index.hundredths())
}

fn put_market_resume(into: &mut [u8; 64], number: u64, moment: Moment) -> usize
    ensures moment { IsMoment moment }
    ensures types { IsTyped messages.MarketResume }
    ensures frame { Frames (framed (numbered_body number moment messages.MarketResume)) into.old result into.new }
{
    put_head(into, 17, 0x19, number, moment)
}

fn put_message(into: &mut [u8; 64], number: u64, moment: Moment, message: &Message) -> usize
    ensures moment { IsMoment moment }
    ensures types { IsTyped message.now }
    ensures frame { Frames (framed (numbered_body number moment message.now)) into.old result into.new }
{
    match *message {
        Message::Listed { symbol, name } => put_listed(into, number, moment, symbol, name),
        Message::State { symbol, phase } => put_state(into, number, moment, symbol, phase),
        Message::Band {
            symbol,
            cause,
            reference,
            lower,
            upper,
        } => put_band(into, number, moment, symbol, cause, reference, lower, upper),
        Message::Straddle { symbol, on } => put_straddle(into, number, moment, symbol, on),
        Message::Collar {
            symbol,
            round,
            lower,
            upper,
        } => put_collar(into, number, moment, symbol, round, lower, upper),
        Message::Release { symbol, price } => put_release(into, number, moment, symbol, price),
        Message::Short { symbol, kind } => put_short(into, number, moment, symbol, kind),
        Message::Breaker { level, index } => put_breaker(into, number, moment, level, index),
        Message::MarketResume => put_market_resume(into, number, moment),
    }
}

fn put_hello(into: &mut [u8; 64], inputs: u64, messages: u64) -> usize
    ensures { Frames (framed (body_of (frames.Hello inputs messages))) into.old result into.new }
{
    let at = put(into, 0, &[17, 0x81]);
    let at = put_u64(into, at, inputs);
    put_u64(into, at, messages)
}

fn put_ack(into: &mut [u8; 64], input: u64) -> usize
    ensures { Frames (framed (body_of (frames.Ack input))) into.old result into.new }
{
    let at = put(into, 0, &[9, 0x82]);
    put_u64(into, at, input)
}

fn put_refused(into: &mut [u8; 64], frame_number: u64, code: u8, field: u8) -> usize
    ensures { Frames (framed (body_of (frames.Refused frame_number code field))) into.old result into.new }
{
    let at = put(into, 0, &[11, 0x83]);
    let at = put_u64(into, at, frame_number);
    put(into, at, &[code, field])
}

/// As put_frame, of any frame.
fn put_any(f: &Frame, into: &mut [u8; 64]) -> usize
    ensures types { HasTypes f.now }
    ensures frame { Frames (framed (body_of f.now)) into.old result into.new }
{
    match f {
        Frame::Hello { inputs, messages } => put_hello(into, *inputs, *messages),
        Frame::Numbered { number, stamped } => put_message(
            into,
            *number,
            stamped.moment,
            &stamped.message,
        ),
        Frame::Ack { input } => put_ack(into, *input),
        Frame::Refused {
            frame_number,
            code,
            field,
        } => put_refused(into, *frame_number, *code, *field),
    }
}

/// Writes a frame at the begin of a buffer, its length byte first, and answers how many bytes it has. The other bytes
/// are kept. What is written for a frame in its ranges is read as that frame.
#[tactic(auto, unfolding(crate::specs::Spelling::spelling))]
pub fn put_frame(f: &Frame, into: &mut [u8; 64]) -> usize
    ensures types { HasTypes f.now }
    ensures frame { Frames (spelling f.now) into.old result into.new }
    ensures bound { result ≤ 64 }
    ensures read { InRange f.now → frame_of (body_of f.now) ≡ Some f.now }
{
    put_any(f, into)
}

/// As put_frame, of the frame of a numbered message, which need not be made for it.
#[tactic(auto, unfolding(crate::specs::Spelling::spelling))]
pub fn put_numbered(number: u64, stamped: &Stamped, into: &mut [u8; 64]) -> usize
    ensures types { HasTypes (frames.Numbered number stamped.now) }
    ensures frame { Frames (spelling (frames.Numbered number stamped.now)) into.old result into.new }
    ensures bound { result ≤ 64 }
    ensures read { InRange (frames.Numbered number stamped.now) → frame_of (body_of (frames.Numbered number stamped.now)) ≡ Some (frames.Numbered number stamped.now) }
{
    put_message(into, number, stamped.moment, &stamped.message)
}
