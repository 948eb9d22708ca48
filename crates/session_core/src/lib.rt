//! Civil dates, moments of the day, the day's session, and what the rules call a stock's and the market's states.
#![tactic(auto)]

mod date;
mod day;
mod moment;
mod state;
mod times;

pub use date::{BadDate, Date, date_text};
pub use day::{Close, Day, Profile, breaker_open, close_moment, in_session, last_10, last_25};
pub use moment::{BadMoment, Moment, age, midnight};
pub use state::{Level, Phase, Span};
pub use times::{
    EARLY_CLOSE, END_OF_FIRST_15_MINUTES, FIFTEEN_MINUTES, FIFTEEN_SECONDS, FIVE_MINUTES,
    REGULAR_CLOSE, SESSION_OPEN, TEN_MINUTES, THIRTY_FIVE_MINUTES, THIRTY_SECONDS,
    TWENTY_FIVE_MINUTES,
};
