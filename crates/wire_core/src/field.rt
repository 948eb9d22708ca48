//! The fields of a body, each at its offset.

ghost use Rattle.std.specs.Prelude.{◌≡◌, ◌+◌, ◌≤◌, ◌↔◌, ◌==◌, IsSome, IsTrue, length, take, drop};
ghost use Rattle.std.specs.List.{list_all};
ghost use Rattle.std.specs.Int.{w16, w32, w64};
ghost use Rattle.price_core.specs.Ranges.{IsPrice, IsIndex};
ghost use Rattle.session_core.specs.Moments.{IsMoment};
ghost use Rattle.wire_core.specs.Fields.{number, moment_at, price_at, optional_price_at, index_at};
ghost use Rattle.wire_core.specs.Names.{is_name, name_at, visible_count};

use byteorder::{BigEndian, ByteOrder};
use price_core::{Index, OptionalPrice, Price};
use session_core::Moment;

/// The number of two bytes at an offset.
pub fn u16_at(body: &[u8], at: usize) -> u16
    requires { at + 2 ≤ length body.now }
    ensures { result ≡ number w16 at body.now }
{
    BigEndian::read_u16(&body[at..])
}

/// The number of four bytes at an offset.
pub fn u32_at(body: &[u8], at: usize) -> u32
    requires { at + 4 ≤ length body.now }
    ensures { result ≡ number w32 at body.now }
{
    BigEndian::read_u32(&body[at..])
}

/// The number of eight bytes at an offset.
pub fn u64_at(body: &[u8], at: usize) -> u64
    requires { at + 8 ≤ length body.now }
    ensures { result ≡ number w64 at body.now }
{
    BigEndian::read_u64(&body[at..])
}

/// The moment at an offset, in eight bytes of nanoseconds; none exactly outside the range.
#[tactic(auto, unfolding(crate::specs::Fields::moment_at))]
pub fn moment_at(body: &[u8], at: usize) -> Option<Moment>
    requires { at + 8 ≤ length body.now }
    ensures value { result ≡ moment_at at body.now }
    ensures range { IsSome result ↔ IsMoment (number w64 at body.now) }
{
    Moment::new(u64_at(body, at)).ok()
}

/// The price at an offset, in eight bytes of ten-thousandths of a dollar; none exactly outside the range.
#[tactic(auto, unfolding(crate::specs::Fields::price_at))]
pub fn price_at(body: &[u8], at: usize) -> Option<Price>
    requires { at + 8 ≤ length body.now }
    ensures value { result ≡ price_at at body.now }
    ensures range { IsSome result ↔ IsPrice (number w64 at body.now) }
{
    Price::new(u64_at(body, at)).ok()
}

/// The price at an offset that may be absent, in eight bytes of ten-thousandths of a dollar, 0 where it is absent; none
/// exactly where the number is neither 0 nor in the range.
#[tactic(auto, unfolding(crate::specs::Fields::optional_price_at))]
pub fn optional_price_at(body: &[u8], at: usize) -> Option<OptionalPrice>
    requires { at + 8 ≤ length body.now }
    ensures { result ≡ optional_price_at at body.now }
{
    OptionalPrice::new(u64_at(body, at)).ok()
}

/// The index value at an offset, in four bytes of hundredths of an index point; none exactly outside the range.
#[tactic(auto, unfolding(crate::specs::Fields::index_at))]
pub fn index_at(body: &[u8], at: usize) -> Option<Index>
    requires { at + 4 ≤ length body.now }
    ensures value { result ≡ index_at at body.now }
    ensures range { IsSome result ↔ IsIndex (number w32 at body.now) }
{
    Index::new(u32_at(body, at)).ok()
}

/// How many visible ASCII characters a name begins with.
fn visible_count(name: &[u8]) -> usize
    ensures value { result ≡ visible_count name.now }
    ensures bound { result ≤ length name.now }
{
    name.iter()
        .take_while(|b| 0x21 <= **b && **b <= 0x7e)
        .count()
}

fn are_zero(bytes: &[u8]) -> bool
    ensures { result ≡ list_all (λ byte. byte == 0) bytes.now }
{
    bytes.iter().all(|b| *b == 0)
}

/// Whether a name is visible characters, at least one, and then zero bytes.
fn is_name(name: &[u8]) -> bool
    ensures { result ≡ is_name name.now }
{
    let count = visible_count(name);
    count > 0 && are_zero(&name[count..])
}

/// The name at an offset: one to eight visible ASCII characters, and then zero bytes, eight bytes in all. None exactly
/// where no name stands there.
#[tactic(auto, unfolding(crate::specs::Names::name_at))]
pub fn name_at(body: &[u8], at: usize) -> Option<[u8; 8]>
    requires { at + 8 ≤ length body.now }
    ensures value { result ≡ name_at at body.now }
    ensures range { IsSome result ↔ IsTrue (is_name (take 8 (drop at body.now))) }
{
    let mut name = [0; 8];
    name.copy_from_slice(&body[at..at + 8]);
    is_name(&name).then_some(name)
}
