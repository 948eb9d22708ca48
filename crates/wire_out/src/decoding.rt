//! From a body to its frame.

ghost use Rattle.std.specs.Prelude.{◌≡◌, ◌+◌, ◌≤◌, length, IfOk, Ok};
ghost use Rattle.std.specs.Result.{result_ok};
ghost use Rattle.wire_out.specs.Reading.{count_at, listed_of, state_of, band_of, straddle_of, collar_of, release_of, short_of, breaker_of, market_resume_of, message_of, numbered_of, hello_of, ack_of, refused_of, frame_of};
ghost use Rattle.wire_out.specs.Spelling.{Spells};
ghost use Rattle.wire_out.specs.declared.message.Frame.{Frame};

use crate::code::{
    cause_of_byte, code_of_byte, field_of_byte, kind_of_byte, level_of_byte, phase_of_byte,
    straddle_of_byte,
};
use crate::message::{Frame, Message, Stamped};
use thiserror::Error;
use wire_core::{index_at, moment_at, name_at, price_at, u16_at, u64_at};

/// A body spells no published frame.
#[derive(Clone, Copy, Debug, PartialEq, Eq, Error)]
#[error("the body spells no published frame")]
pub struct BadFrame;

/// The number at an offset, in eight bytes; none exactly where it is 0.
#[tactic(auto, unfolding(crate::specs::Reading::count_at))]
fn count_at(body: &[u8], at: usize) -> Option<u64>
    requires { at + 8 ≤ length body.now }
    ensures { result ≡ count_at at body.now }
{
    match u64_at(body, at) {
        0 => None,
        count => Some(count),
    }
}

#[tactic(auto, unfolding(crate::specs::Reading::listed_of))]
fn listed(body: &[u8]) -> Option<Message>
    ensures { result ≡ listed_of body.now }
{
    if body.len() != 27 {
        return None;
    }
    let name = name_at(body, 19)?;
    Some(Message::Listed {
        symbol: u16_at(body, 17),
        name,
    })
}

#[tactic(auto, unfolding(crate::specs::Reading::state_of))]
fn state(body: &[u8]) -> Option<Message>
    ensures { result ≡ state_of body.now }
{
    if body.len() != 20 {
        return None;
    }
    let phase = phase_of_byte(body[19])?;
    Some(Message::State {
        symbol: u16_at(body, 17),
        phase,
    })
}

#[tactic(auto, unfolding(crate::specs::Reading::band_of))]
fn band(body: &[u8]) -> Option<Message>
    ensures { result ≡ band_of body.now }
{
    if body.len() != 44 {
        return None;
    }
    let cause = cause_of_byte(body[19])?;
    let reference = price_at(body, 20)?;
    let lower = price_at(body, 28)?;
    let upper = price_at(body, 36)?;
    Some(Message::Band {
        symbol: u16_at(body, 17),
        cause,
        reference,
        lower,
        upper,
    })
}

#[tactic(auto, unfolding(crate::specs::Reading::straddle_of))]
fn straddle(body: &[u8]) -> Option<Message>
    ensures { result ≡ straddle_of body.now }
{
    if body.len() != 20 {
        return None;
    }
    let on = straddle_of_byte(body[19])?;
    Some(Message::Straddle {
        symbol: u16_at(body, 17),
        on,
    })
}

#[tactic(auto, unfolding(crate::specs::Reading::collar_of))]
fn collar(body: &[u8]) -> Option<Message>
    ensures { result ≡ collar_of body.now }
{
    if body.len() != 37 {
        return None;
    }
    let lower = price_at(body, 21)?;
    let upper = price_at(body, 29)?;
    Some(Message::Collar {
        symbol: u16_at(body, 17),
        round: u16_at(body, 19),
        lower,
        upper,
    })
}

#[tactic(auto, unfolding(crate::specs::Reading::release_of))]
fn release(body: &[u8]) -> Option<Message>
    ensures { result ≡ release_of body.now }
{
    if body.len() != 27 {
        return None;
    }
    let price = price_at(body, 19)?;
    Some(Message::Release {
        symbol: u16_at(body, 17),
        price,
    })
}

#[tactic(auto, unfolding(crate::specs::Reading::short_of))]
fn short(body: &[u8]) -> Option<Message>
    ensures { result ≡ short_of body.now }
{
    if body.len() != 20 {
        return None;
    }
    let kind = kind_of_byte(body[19])?;
    Some(Message::Short {
        symbol: u16_at(body, 17),
        kind,
    })
}

#[tactic(auto, unfolding(crate::specs::Reading::breaker_of))]
fn breaker(body: &[u8]) -> Option<Message>
    ensures { result ≡ breaker_of body.now }
{
    if body.len() != 22 {
        return None;
    }
    let level = level_of_byte(body[17])?;
    let index = index_at(body, 18)?;
    Some(Message::Breaker { level, index })
}

#[tactic(auto, unfolding(crate::specs::Reading::market_resume_of))]
fn market_resume(body: &[u8]) -> Option<Message>
    ensures { result ≡ market_resume_of body.now }
{
    if body.len() != 17 {
        return None;
    }
    Some(Message::MarketResume)
}

/// The message of a body, which has room for a number and a moment before its fields.
#[tactic(auto, unfolding(crate::specs::Reading::message_of))]
fn message(body: &[u8]) -> Option<Message>
    ensures { result ≡ message_of body.now }
{
    match body {
        [0x11, ..] => listed(body),
        [0x12, ..] => state(body),
        [0x13, ..] => band(body),
        [0x14, ..] => straddle(body),
        [0x15, ..] => collar(body),
        [0x16, ..] => release(body),
        [0x17, ..] => short(body),
        [0x18, ..] => breaker(body),
        [0x19, ..] => market_resume(body),
        _ => None,
    }
}

#[tactic(auto, unfolding(crate::specs::Reading::numbered_of))]
fn numbered(body: &[u8]) -> Option<Frame>
    ensures { result ≡ numbered_of body.now }
{
    let message = message(body)?;
    let number = count_at(body, 1)?;
    let moment = moment_at(body, 9)?;
    Some(Frame::Numbered {
        number,
        stamped: Stamped { moment, message },
    })
}

#[tactic(auto, unfolding(crate::specs::Reading::hello_of))]
fn hello(body: &[u8]) -> Option<Frame>
    ensures { result ≡ hello_of body.now }
{
    if body.len() != 17 {
        return None;
    }
    Some(Frame::Hello {
        inputs: u64_at(body, 1),
        messages: u64_at(body, 9),
    })
}

#[tactic(auto, unfolding(crate::specs::Reading::ack_of))]
fn ack(body: &[u8]) -> Option<Frame>
    ensures { result ≡ ack_of body.now }
{
    if body.len() != 9 {
        return None;
    }
    let input = count_at(body, 1)?;
    Some(Frame::Ack { input })
}

#[tactic(auto, unfolding(crate::specs::Reading::refused_of))]
fn refused(body: &[u8]) -> Option<Frame>
    ensures { result ≡ refused_of body.now }
{
    if body.len() != 11 {
        return None;
    }
    let frame_number = count_at(body, 1)?;
    let code = code_of_byte(body[9])?;
    let field = field_of_byte(code, body[10])?;
    Some(Frame::Refused {
        frame_number,
        code,
        field,
    })
}

#[tactic(auto, unfolding(crate::specs::Reading::frame_of))]
fn frame(body: &[u8]) -> Option<Frame>
    ensures { result ≡ frame_of body.now }
{
    match body {
        [] => None,
        [0x81, ..] => hello(body),
        [0x82, ..] => ack(body),
        [0x83, ..] => refused(body),
        [_, ..] => numbered(body),
    }
}

/// The frame that a body spells; an error exactly where it spells none. Each frame has one body.
pub fn get_frame(body: &[u8]) -> Result<Frame, BadFrame>
    ensures exact { result_ok result ≡ frame_of body.now }
    ensures found { IfOk result (Spells body.now) }
    ensures only { (f : Frame) → Spells body.now f → result ≡ Ok f }
{
    match frame(body) {
        Some(f) => Ok(f),
        None => Err(BadFrame),
    }
}
