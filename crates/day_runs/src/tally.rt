//! What is told of things that were compared.

use crate::text::{DayError, first_difference};
use std::io;

/// Tells of the first line in which a text that was sent differs from the one that is stated. Answers whether there is none.
pub fn tell_difference<Rt: Print>(
    rt: &Rt,
    name: &str,
    stated: &str,
    sent: &str,
) -> io::Result<bool> {
    let Some(found) = first_difference(stated, sent) else {
        return Ok(true);
    };
    let stated = found.stated.unwrap_or("nothing");
    let sent = found.sent.unwrap_or("nothing");
    println!(rt;
        "{name}: line {}\n  stated: {stated}\n  sent:   {sent}",
        found.line
    )?;
    Ok(false)
}

/// Tells why something can't be compared.
pub fn tell_error<Rt: Print>(rt: &Rt, name: &str, error: &DayError) -> io::Result<bool> {
    println!(rt; "{name}: {error}")?;
    Ok(false)
}

/// Tells of so many things of a kind how many differ, or that they agree. Answers whether there is one, and none differs.
pub fn tell_tally<Rt: Print>(rt: &Rt, kind: &str, count: usize, differ: usize) -> io::Result<bool> {
    match (count, differ) {
        (0, _) => println!(rt; "there is no {kind}")?,
        (_, 0) => println!(rt; "each {kind} agrees")?,
        _ => println!(rt; "{kind}s that differ: {differ}")?,
    }
    Ok(count > 0 && differ == 0)
}
