//! The lines of published frames.

ghost use Rattle.std.specs.Prelude.{◌≡◌, ◌≤◌, ◌++◌, ◌∷◌, [], IsTrue, IfOk, decimal, length};
ghost use Rattle.std.specs.String.{string_bytes};
ghost use Rattle.session_core.specs.Moments.{IsMoment};
ghost use Rattle.wire_core.specs.Names.{is_name};
ghost use Rattle.wire_out.specs.Spelling.{HasTypes, InRange, IsSayable, IsTyped};
ghost use Rattle.wire_out.specs.declared.message.Message.TheVariants as messages;
ghost use Rattle.wire_out.specs.declared.message.Frame.TheVariants as frames;
ghost use Rattle.text_core.specs.Words.{time_word};
ghost use Rattle.text_core.specs.Lines.{followed_by, line_of_frame, words_of_message, PrintsFrame};

use crate::line::Line;
use crate::word::{cause_word, level_word, phase_word, short_word, straddle_word};
use price_core::{Cause, Index, NoMemory, Price};
use session_core::{Level, Moment, Phase};
use std::alloc::Global;
use wire_out::{Frame, Message, ShortKind};

/// Writes the begin of a numbered message's line.
fn begin_numbered(line: &mut Line, number: u64, moment: Moment)
    requires { line.old ≡ [] }
    ensures moment { IsMoment moment }
    ensures text { line.new ≡ decimal number ++ 32 ∷ time_word moment }
    ensures short { length line.new ≤ 45 }
{
    line.begin_number(number);
    line.time(moment);
}

fn write_listed(line: &mut Line, symbol: u16, name: [u8; 8])
    requires room { length line.old ≤ 45 }
    requires name { IsTrue (is_name name) }
    ensures types { IsTyped (messages.Listed symbol name) }
    ensures text { line.new ≡ followed_by line.old (words_of_message (messages.Listed symbol name)) }
    ensures short { length line.new ≤ 240 }
{
    line.word("listed");
    line.number(u64::from(symbol));
    line.name(&name);
}

fn write_state(line: &mut Line, symbol: u16, phase: Phase)
    requires { length line.old ≤ 45 }
    ensures types { IsTyped (messages.State symbol phase) }
    ensures text { line.new ≡ followed_by line.old (words_of_message (messages.State symbol phase)) }
    ensures short { length line.new ≤ 240 }
{
    line.word("state");
    line.number(u64::from(symbol));
    line.word(phase_word(phase));
}

fn write_band(
    line: &mut Line,
    symbol: u16,
    cause: Cause,
    reference: Price,
    lower: Price,
    upper: Price,
)
    requires { length line.old ≤ 45 }
    ensures types { IsTyped (messages.Band symbol cause reference lower upper) }
    ensures text { line.new ≡ followed_by line.old (words_of_message (messages.Band symbol cause reference lower upper)) }
    ensures short { length line.new ≤ 240 }
{
    line.word("band");
    line.number(u64::from(symbol));
    line.word(cause_word(cause));
    line.price(reference);
    line.price(lower);
    line.price(upper);
}

fn write_straddle(line: &mut Line, symbol: u16, on: bool)
    requires { length line.old ≤ 45 }
    ensures types { IsTyped (messages.Straddle symbol on) }
    ensures text { line.new ≡ followed_by line.old (words_of_message (messages.Straddle symbol on)) }
    ensures short { length line.new ≤ 240 }
{
    line.word("straddle");
    line.number(u64::from(symbol));
    line.word(straddle_word(on));
}

fn write_collar(line: &mut Line, symbol: u16, round: u16, lower: Price, upper: Price)
    requires { length line.old ≤ 45 }
    ensures types { IsTyped (messages.Collar symbol round lower upper) }
    ensures text { line.new ≡ followed_by line.old (words_of_message (messages.Collar symbol round lower upper)) }
    ensures short { length line.new ≤ 240 }
{
    line.word("collar");
    line.number(u64::from(symbol));
    line.number(u64::from(round));
    line.price(lower);
    line.price(upper);
}

fn write_release(line: &mut Line, symbol: u16, price: Price)
    requires { length line.old ≤ 45 }
    ensures types { IsTyped (messages.Release symbol price) }
    ensures text { line.new ≡ followed_by line.old (words_of_message (messages.Release symbol price)) }
    ensures short { length line.new ≤ 240 }
{
    line.word("release");
    line.number(u64::from(symbol));
    line.price(price);
}

fn write_short(line: &mut Line, symbol: u16, kind: ShortKind)
    requires { length line.old ≤ 45 }
    ensures types { IsTyped (messages.Short symbol kind) }
    ensures text { line.new ≡ followed_by line.old (words_of_message (messages.Short symbol kind)) }
    ensures short { length line.new ≤ 240 }
{
    line.word("short");
    line.number(u64::from(symbol));
    line.word(short_word(kind));
}

fn write_breaker(line: &mut Line, level: Level, index: Index)
    requires { length line.old ≤ 45 }
    ensures types { IsTyped (messages.Breaker level index) }
    ensures text { line.new ≡ followed_by line.old (words_of_message (messages.Breaker level index)) }
    ensures short { length line.new ≤ 240 }
{
    line.word("breaker");
    line.word(level_word(level));
    line.index(index);
}

fn write_market_resume(line: &mut Line)
    requires { length line.old ≤ 45 }
    ensures types { IsTyped messages.MarketResume }
    ensures text { line.new ≡ followed_by line.old (words_of_message messages.MarketResume) }
    ensures short { length line.new ≤ 240 }
{
    line.word("marketresume");
}

/// Appends the words of a message.
fn write_message(line: &mut Line, message: Message)
    requires room { length line.old ≤ 45 }
    requires ranges { IsSayable message }
    ensures types { IsTyped message }
    ensures text { line.new ≡ followed_by line.old (words_of_message message) }
    ensures short { length line.new ≤ 240 }
{
    match message {
        Message::Listed { symbol, name } => write_listed(line, symbol, name),
        Message::State { symbol, phase } => write_state(line, symbol, phase),
        Message::Band {
            symbol,
            cause,
            reference,
            lower,
            upper,
        } => write_band(line, symbol, cause, reference, lower, upper),
        Message::Straddle { symbol, on } => write_straddle(line, symbol, on),
        Message::Collar {
            symbol,
            round,
            lower,
            upper,
        } => write_collar(line, symbol, round, lower, upper),
        Message::Release { symbol, price } => write_release(line, symbol, price),
        Message::Short { symbol, kind } => write_short(line, symbol, kind),
        Message::Breaker { level, index } => write_breaker(line, level, index),
        Message::MarketResume => write_market_resume(line),
    }
}

fn write_hello(line: &mut Line, inputs: u64, messages: u64)
    requires empty { line.old ≡ [] }
    ensures types { HasTypes (frames.Hello inputs messages) }
    ensures text { line.new ≡ line_of_frame (frames.Hello inputs messages) }
    ensures short { length line.new ≤ 240 }
{
    line.begin("hello");
    line.number(inputs);
    line.number(messages);
}

fn write_ack(line: &mut Line, input: u64)
    requires empty { line.old ≡ [] }
    ensures types { HasTypes (frames.Ack input) }
    ensures text { line.new ≡ line_of_frame (frames.Ack input) }
    ensures short { length line.new ≤ 240 }
{
    line.begin("ack");
    line.number(input);
}

fn write_refused(line: &mut Line, frame_number: u64, code: u8, field: u8)
    requires empty { line.old ≡ [] }
    ensures types { HasTypes (frames.Refused frame_number code field) }
    ensures text { line.new ≡ line_of_frame (frames.Refused frame_number code field) }
    ensures short { length line.new ≤ 240 }
{
    line.begin("refused");
    line.number(frame_number);
    line.number(u64::from(code));
    line.number(u64::from(field));
}

/// Writes the line of a frame that is in its ranges.
pub fn write_frame(line: &mut Line, f: &Frame)
    requires empty { line.old ≡ [] }
    requires ranges { InRange f.now }
    ensures types { HasTypes f.now }
    ensures text { line.new ≡ line_of_frame f.now }
    ensures short { length line.new ≤ 240 }
{
    match *f {
        Frame::Hello { inputs, messages } => write_hello(line, inputs, messages),
        Frame::Numbered { number, stamped } => {
            begin_numbered(line, number, stamped.moment);
            write_message(line, stamped.message);
        }
        Frame::Ack { input } => write_ack(line, input),
        Frame::Refused {
            frame_number,
            code,
            field,
        } => write_refused(line, frame_number, code, field),
    }
}

/// The line of a published frame in its ranges, without its newline.
#[tactic(auto, using(crate::proofs::Frames::frame_ascii))]
pub fn print_frame(alloc: Global, f: &Frame) -> Result<String, NoMemory>
    requires { InRange f.now }
    ensures text { IfOk result (λ line. string_bytes line ≡ line_of_frame f.now) }
    ensures prints { IfOk result (λ line. PrintsFrame (string_bytes line) f.now) }
{
    let mut line = Line::new();
    write_frame(&mut line, f);
    Ok(String::from_str(alloc, line.as_str())?)
}
