//! Tests of values and of the rules, one file for each.

mod alarm;
mod audit;
mod breaker;
mod cases;
mod cross;
mod eligible;
mod limit;
mod pause;
mod percent;
mod price;
mod refprice;
mod reopen;
mod script;
mod session;
mod short;
mod values;
mod window;
