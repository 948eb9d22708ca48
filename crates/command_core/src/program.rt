//! The top call: what a command line asks for, done over a host.

ghost use Rattle.std.specs.Prelude.{◌≡◌, ◌≢◌, ◌≤◌, None, Some, IfOk, map};
ghost use Rattle.host_core.specs.Outside.{Continues};
ghost use Rattle.journal_core.specs.Layout.{IsLimit};
ghost use Rattle.journal_core.specs.Formatted.{Formatted};
ghost use Rattle.words_core.specs.declared.command.Command.{Command};
ghost use Rattle.words_core.specs.Commands.{IsInRange};
ghost use Rattle.words_core.specs.Asked.{IsAskedInRange};
ghost use Rattle.words_core.specs.Plain.{command_of};
ghost use Rattle.gen_core.specs.Generated.{IsPlan};
ghost use Rattle.command_core.specs.Runs.{Ran, Generates, Shown, Did, Obeyed};

use auction_core::cross_stream;
use audit_core::audit_stream;
use gen_core::{DayPlan, send_day};
use host_core::{Host, Status, send_all};
use journal_core::format;
use live_core::{ServeOptions, serve};
use rehearse_core::rehearse;
use replay_core::{ReplayOptions, replay};
use report_core::report;
use roll_core::roll;
use screen_core::board_stream;
use standby_core::{ship, standby};
use std::alloc::Global;
use std::thread::Threads;
use text_core::{pack_stream, print_stream};
use words_core::{Asked, Command, WordsError, parse};
use yard_core::Gate;

/// Makes an empty journal.
fn format_journal<H: Host>(host: &mut H, limit: u64) -> Status
    requires { IsLimit limit }
    ensures formatted { Formatted limit result (H.outside host.old) (H.outside host.new) }
    ensures continues { Continues (H.outside host.old) (H.outside host.new) }
{
    match format(host, limit) {
        Ok(()) => Status::Done,
        Err(_) => Status::DiskFault,
    }
}

/// Sends a generated day, or its summary, for which so many workers evaluate it.
fn generate<Rt: Threads + Sync, H: Host, G: Gate>(
    rt: &Rt,
    alloc: Global,
    host: &mut H,
    gate: &G,
    plan: &DayPlan,
    workers: u32,
    summary: bool,
) -> Status
    requires plan { IsPlan plan.now }
    requires workers { (1 ≤ workers) × (workers ≤ 64) }
    ensures generated { Generates plan.now summary result (H.outside host.old) (H.outside host.new) }
    ensures continues { Continues (H.outside host.old) (H.outside host.new) }
{
    if summary {
        rehearse(rt, alloc, host, gate, plan, workers)
    } else {
        send_day(alloc, host, plan)
    }
}

/// Does what a command asks for.
fn obey<Rt: Threads + Sync, H: Host, G: Gate>(
    rt: &Rt,
    alloc: Global,
    host: &mut H,
    gate: &G,
    command: Command,
) -> Status
    requires { IsInRange command }
    ensures ran { Ran (host.new ≡ host.old) command result (H.outside host.old) (H.outside host.new) }
    ensures continues { Continues (H.outside host.old) (H.outside host.new) }
{
    match command {
        Command::Format { limit } => format_journal(host, limit),
        Command::Serve {
            from,
            workers,
            batch,
            bytes,
        } => {
            let options = ServeOptions {
                from,
                workers,
                batch,
                bytes,
            };
            serve(rt, alloc, host, gate, &options)
        }
        Command::Replay { workers, bytes } => {
            replay(rt, alloc, host, gate, &ReplayOptions { workers, bytes })
        }
        Command::Status => report(rt, alloc, host),
        Command::Print { kind } => print_stream(alloc, host, kind),
        Command::Pack { kind } => pack_stream(alloc, host, kind),
        Command::Generate {
            seed,
            symbols,
            records,
            workers,
            summary,
        } => {
            let plan = DayPlan {
                seed,
                symbols,
                records,
            };
            generate(rt, alloc, host, gate, &plan, workers, summary)
        }
        Command::Roll => roll(rt, alloc, host),
        Command::Board { bytes } => board_stream(alloc, host, bytes),
        Command::Cross => cross_stream(alloc, host),
        Command::Audit => audit_stream(alloc, host),
        Command::Ship { from } => ship(alloc, host, from),
        Command::Standby { batch, bytes } => standby(alloc, host, batch, bytes),
    }
}

/// Sends a text that was asked for.
fn show<H: Host>(host: &mut H, text: &str) -> Status
    ensures shown { Shown text.now result (H.outside host.old) (H.outside host.new) }
    ensures continues { Continues (H.outside host.old) (H.outside host.new) }
{
    match send_all(host, text.as_bytes()) {
        Ok(()) => Status::Done,
        Err(_) => Status::SendFault,
    }
}

/// Does what words ask for.
fn answer<Rt: Threads + Sync, H: Host, G: Gate>(
    rt: &Rt,
    alloc: Global,
    host: &mut H,
    gate: &G,
    asked: &Result<Asked, WordsError>,
) -> Status
    requires { IfOk asked.now IsAskedInRange }
    ensures did { Did (host.new ≡ host.old) asked.now result (H.outside host.old) (H.outside host.new) }
    ensures continues { Continues (H.outside host.old) (H.outside host.new) }
{
    match asked {
        Ok(Asked::Command(command)) => obey(rt, alloc, host, gate, *command),
        Ok(Asked::Text(text)) => show(host, text.as_str()),
        Err(WordsError::Usage) => Status::Usage,
        Err(WordsError::NoMemory) => Status::NoMemory,
    }
}

/// Does what the words say over a host, and answers how it ended. Each worker passes the gate before it evaluates a piece of a
/// block.
pub fn run<Rt: Threads + Sync, H: Host, G: Gate>(
    rt: &Rt,
    alloc: Global,
    words: &[&str],
    host: &mut H,
    gate: &G,
) -> Status
    // A plain line does its command, and each command keeps what it promises.
    ensures ran { (command : Command) → command_of (map (λ w. w.now) words.now) ≡ Some command
        → Ran (host.new ≡ host.old) command result (H.outside host.old) (H.outside host.new) }
    // Other words are answered as the command line says.
    ensures others { command_of (map (λ w. w.now) words.now) ≡ None
        → Obeyed (host.new ≡ host.old) (map (λ w. w.now) words.now) result (H.outside host.old) (H.outside host.new) }
    // A plain line is always understood. Where words are not, the host is not called.
    ensures understood { (command : Command) → command_of (map (λ w. w.now) words.now) ≡ Some command → result ≢ Status.Usage }
    ensures untouched { result ≡ Status.Usage → host.new ≡ host.old }
    ensures continues { Continues (H.outside host.old) (H.outside host.new) }
{
    answer(rt, alloc, host, gate, &parse(alloc, words))
}
