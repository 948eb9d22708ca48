//! A worked example of an order gateway. It reads one day's published frames, publishes their messages on a board while two
//! readers ask beside it for the price bands of each stock, and tells what they saw and what stands last. With the words
//! `pace` and a count it tells how long a board's calls take.
#![tactic(auto)]

ghost use Rattle.std.specs.Prelude.{IfOk};
ghost use Rattle.gateway.specs.Words.{IsWithin};

mod day;
mod error;
mod pace;
mod reader;
mod reading;
mod rows;
mod telling;
mod words;

use crate::day::run_day;
use crate::error::GatewayError;
use crate::pace::tell_pace;
use crate::reading::{read_messages, stocks_of};
use crate::telling::tell_day;
use crate::words::{Request, request_of};
use std::env::{self, Env};
use std::io::Read;
use std::rt::Clock;
use std::thread::Threads;

/// How often each reader asks for both edges of each stock.
const ROUNDS: u32 = 1_000;

/// Runs the day of standard input, and tells of it.
fn gateway<Rt: Input + Print + Eprint + AllocGlobal + Threads + Sync>(
    rt: &Rt,
) -> Result<(), GatewayError> {
    let mut bytes = Vec::new(rt.alloc());
    if rt.reader().read_to_end(&mut bytes).is_err() {
        return Err(GatewayError::ReadFault);
    }
    let messages = read_messages(rt.alloc(), &bytes)?;
    let stocks = stocks_of(&messages);
    let day = run_day(rt, rt.alloc(), stocks, &messages, ROUNDS)?;
    tell_day(rt, &day).map_err(|_| GatewayError::SendFault)
}

/// What the words of this process ask for.
fn request_here<Rt: Env + AllocGlobal>(rt: &Rt) -> Result<Request, GatewayError>
    ensures { IfOk result IsWithin }
{
    let mut words = Vec::new(rt.alloc());
    for word in env::args(rt).map_err(|_| GatewayError::BadWords)? {
        words.push(word).map_err(|_| GatewayError::NoMemory)?;
    }
    let mut args = Vec::new(rt.alloc());
    for word in &words {
        args.push(word.as_str())
            .map_err(|_| GatewayError::NoMemory)?;
    }
    request_of(&args).ok_or(GatewayError::BadWords)
}

/// Does what the words of this process ask for, or says on standard error why they ask for nothing.
fn gateway_here<Rt: Env + Clock + Input + Print + Eprint + AllocGlobal + Threads + Sync>(
    rt: &Rt,
) -> Result<(), GatewayError> {
    match request_here(rt) {
        Ok(Request::Day) => gateway(rt),
        Ok(Request::Pace(count)) => tell_pace(rt, rt.alloc(), count),
        Err(error) => {
            eprintln!(rt; "gateway: {error}").map_err(|_| GatewayError::SendFault)?;
            Err(error)
        }
    }
}

fn main(rt: HostRuntime) -> Result<(), GatewayError> {
    gateway_here(&rt)
}
