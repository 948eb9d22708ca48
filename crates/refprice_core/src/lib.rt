//! The reference price of a stock's price bands (LULD Plan, Section V).
#![tactic(auto)]

mod reference;

pub use reference::{
    Adoption, Priced, Reference, because, first_price, forced, is_in_opening_period,
};
