//! What a word of a board says, and the number that says it.

ghost use Rattle.std.specs.Prelude.{◌≡◌, ◌+◌, ◌<◌, ◌^◌, ◌≤◌};
ghost use Rattle.wire_out.specs.Codes.{phase_byte};
ghost use Rattle.board_core.specs.declared.shown.Shown.{Shown};
ghost use Rattle.board_core.specs.declared.shown.Edge.{Edge};
ghost use Rattle.board_core.specs.Numbers.{flag, state_number, edge_number, HasCents};

use price_core::Price;
use session_core::Phase;

/// The state of a symbol: its phase, straddle state and short sale restriction, and how many changes of them came before.
#[derive(Clone, Copy, Debug, PartialEq, Eq)]
pub struct Shown {
    pub version: u64,
    pub phase: Phase,
    pub straddle: bool,
    pub short: bool,
}

/// One side of the price bands of a symbol, in ten-thousandths of a dollar where it has any, and how many changes of them
/// came before.
#[derive(Clone, Copy, Debug, PartialEq, Eq)]
pub struct Edge {
    pub version: u64,
    pub price: Option<Price>,
}

fn phase_number(phase: Phase) -> u64
    ensures { result ≡ phase_byte phase }
{
    match phase {
        Phase::Shut => 0,
        Phase::Trading => 1,
        Phase::LimitLow => 2,
        Phase::LimitHigh => 3,
        Phase::Paused => 4,
        Phase::Halted => 5,
        Phase::Stopped => 6,
        Phase::Closing => 7,
        Phase::Closed => 8,
    }
}

fn phase_of_number(number: u64) -> Phase
    requires { number ≤ 8 }
    ensures { phase_byte result ≡ number }
{
    match number {
        0 => Phase::Shut,
        1 => Phase::Trading,
        2 => Phase::LimitLow,
        3 => Phase::LimitHigh,
        4 => Phase::Paused,
        5 => Phase::Halted,
        6 => Phase::Stopped,
        7 => Phase::Closing,
        _ => Phase::Closed,
    }
}

impl Shown {
    /// The number of its word.
    pub(crate) fn number(&self) -> u64
        requires { self.now.version < 2 ^ 34 }
        ensures { result ≡ state_number self.now }
    {
        let flags = 16 * u64::from(self.straddle) + 32 * u64::from(self.short);
        self.version * 256 + phase_number(self.phase) + flags
    }

    /// The state that a word says.
    pub(crate) fn of_number(number: u64) -> Shown
        requires { (shown : Shown) × (state_number shown ≡ number) }
        ensures { state_number result ≡ number }
    {
        Shown {
            version: number / 256,
            phase: phase_of_number(number % 16),
            straddle: number / 16 % 2 == 1,
            short: number / 32 % 2 == 1,
        }
    }
}

impl Edge {
    /// The number of its word.
    pub(crate) fn number(&self) -> u64
        requires version { self.now.version < 2 ^ 34 }
        requires cents { HasCents self.now }
        ensures { result ≡ edge_number self.now }
    {
        let cents = match self.price {
            Some(price) => price.units() / 100,
            None => 0,
        };
        self.version * (1 << 30) + cents
    }

    /// The edge that a word says.
    pub(crate) fn of_number(number: u64) -> Edge
        requires { (edge : Edge) × HasCents edge × (edge_number edge ≡ number) }
        ensures cents { HasCents result }
        ensures number { edge_number result ≡ number }
    {
        let version = number / (1 << 30);
        match number % (1 << 30) {
            0 => Edge {
                version,
                price: None,
            },
            cents => Edge {
                version,
                price: Some(Price::of(cents * 100)),
            },
        }
    }
}
