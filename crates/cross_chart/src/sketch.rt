//! What the lines of a cross tell, taken one by one.

ghost use Rattle.std.specs.Prelude.{◌≡◌, ◌⊎◌, Some, None, OnOk, IfErr, IfOk};
ghost use Rattle.host_core.specs.declared.status.Status.TheVariants as statuses;
ghost use Rattle.cross_chart.specs.Sketches.{begun, stage_after, is_last, noted, with_line};

use crate::line::CrossLine;
use cross_core::{Crossed, Rows};
use host_core::Status;
use price_core::{NoMemory, Price, Unmatched};
use session_core::{Moment, midnight};
use std::alloc::Global;

/// Which lines may come next.
#[derive(Clone, Copy, Debug, PartialEq, Eq)]
pub enum Stage {
    Indication,
    Volume,
    Imbalance,
    FirstRow,
    RowOrFill,
    Fill,
}

/// The moment, the symbol and the cross of an auction.
#[derive(Debug, Drop)]
pub struct Sketch {
    pub stage: Stage,
    pub moment: Moment,
    pub symbol: u16,
    pub crossed: Crossed,
}

/// Which lines may come behind a line; none where it may not stand there.
fn stage_after(stage: Stage, x: &CrossLine) -> Option<Stage>
    ensures { result ≡ stage_after stage x.now }
{
    match (stage, x) {
        (Stage::Indication, CrossLine::Indication { .. }) => Some(Stage::Volume),
        (Stage::Volume, CrossLine::Volume(_)) => Some(Stage::Imbalance),
        (Stage::Imbalance, CrossLine::Imbalance(_)) => Some(Stage::FirstRow),
        (Stage::FirstRow | Stage::RowOrFill, CrossLine::Compared(_)) => Some(Stage::RowOrFill),
        (Stage::RowOrFill | Stage::Fill, CrossLine::Fill(_)) => Some(Stage::Fill),
        _ => None,
    }
}

impl Sketch {
    /// Before the first line.
    pub fn new(alloc: Global) -> Sketch
        ensures { result ≡ begun }
    {
        Sketch {
            stage: Stage::Indication,
            moment: midnight(),
            symbol: 0,
            crossed: Crossed {
                price: Price::of(1),
                volume: 0,
                imbalance: 0,
                left: Unmatched::Nothing,
                rows: Rows::new(alloc),
            },
        }
    }

    /// Whether the cross may end there.
    pub fn is_whole(&self) -> bool
        ensures { result ≡ is_last self.now.stage }
    {
        matches!(self.stage, Stage::RowOrFill | Stage::Fill)
    }

    /// Notes what a line says.
    fn note(&mut self, x: &CrossLine) -> Result<(), NoMemory>
        ensures { OnOk result (self.new ≡ noted self.old x.now) }
    {
        match x {
            CrossLine::Indication {
                moment,
                symbol,
                price,
                left,
            } => {
                self.moment = *moment;
                self.symbol = *symbol;
                self.crossed.price = *price;
                self.crossed.left = *left;
                Ok(())
            }
            CrossLine::Volume(n) => {
                self.crossed.volume = *n;
                Ok(())
            }
            CrossLine::Imbalance(n) => {
                self.crossed.imbalance = *n;
                Ok(())
            }
            CrossLine::Compared(row) => self.crossed.rows.push(*row),
            CrossLine::Fill(_) => Ok(()),
        }
    }

    /// Takes what the line of that number says, where it may stand there.
    pub fn take(&mut self, x: &CrossLine, number: u64) -> Result<(), Status>
        ensures exact { OnOk result (with_line self.old x.now ≡ Some self.new) }
        ensures stopped { IfErr result (λ s. (s ≡ statuses.NoMemory) ⊎ ((s ≡ statuses.BadText number) × (with_line self.old x.now ≡ None))) }
    {
        let Some(stage) = stage_after(self.stage, x) else {
            return Err(Status::BadText { line: number });
        };
        self.stage = stage;
        match self.note(x) {
            Ok(()) => Ok(()),
            Err(_) => Err(Status::NoMemory),
        }
    }
}
