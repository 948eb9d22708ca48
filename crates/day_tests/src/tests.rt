//! Tests of generated days and of their summaries.

mod generated;
mod rehearsed;

use gen_core::DayPlan;

/// The day of the measures: 500 symbols and 400,000 records from the seed 1.
const USUAL: DayPlan = DayPlan {
    seed: 1,
    symbols: 500,
    records: 400_000,
};

/// Two symbols and six records, each of which is a clock.
const CLOCKS: DayPlan = DayPlan {
    seed: 1,
    symbols: 2,
    records: 6,
};
