//! From a line to its auction or its order.

ghost use Rattle.std.specs.Prelude.{◌≡◌, ◌≤◌, ◌&&◌, [], IfSome, bytes_eq, length, nat_le};
ghost use Rattle.auction_core.specs.Lines.{line_of_auction, line_of_order, side_word};
ghost use Rattle.auction_core.specs.Reading.{auction_of, auction_in, side_in, order_of, order_in, is_line_of_auction, is_line_of_order};

use crate::auction::Auction;
use cross_core::Order;
use price_core::Collars;
use text_core::{Line, is, moment, number16, number32, optional_price, price, split};

/// The most bytes of a line.
const LINE: usize = 255;

/// What a line is taken for: the auction that it prints, if it prints one, and else any.
#[tactic(auto, unfolding(crate::specs::Reading::auction_of), using(text_core::proofs::Words::word_1, text_core::proofs::Words::word_2, text_core::proofs::Words::word_3, text_core::proofs::Words::word_4, text_core::proofs::Words::word_5))]
fn auction(line: &[u8]) -> Option<Auction>
    ensures { result ≡ auction_of line.now }
{
    let (_, rest) = split(line);
    let (word, rest) = split(rest);
    let moment = moment(word)?;
    let (word, rest) = split(rest);
    let symbol = number16(word)?;
    let (word, rest) = split(rest);
    let reference = price(word)?;
    let (word, rest) = split(rest);
    let lower = price(word)?;
    let (word, _) = split(rest);
    let upper = price(word)?;
    let collars = Collars { lower, upper };
    Some(Auction {
        moment,
        symbol,
        reference,
        collars,
    })
}

/// Whether the word of a side is the one of a buy.
fn side(word: &[u8]) -> Option<bool>
    ensures { result ≡ side_in word.now }
{
    if is(word, "buy") {
        Some(true)
    } else if is(word, "sell") {
        Some(false)
    } else {
        None
    }
}

/// What a line is taken for: the order that it prints, if it prints one, and else any.
#[tactic(auto, unfolding(crate::specs::Reading::order_of), using(text_core::proofs::Words::word_1, text_core::proofs::Words::word_2, text_core::proofs::Words::word_3))]
fn order(line: &[u8]) -> Option<Order>
    ensures { result ≡ order_of line.now }
{
    let (_, rest) = split(line);
    let (word, rest) = split(rest);
    let buy = side(word)?;
    let (word, rest) = split(rest);
    let price = optional_price(word)?;
    let (word, _) = split(rest);
    let size = number32(word)?;
    Some(Order { buy, price, size })
}

/// Writes the line of an auction.
fn write_auction(line: &mut Line, a: &Auction)
    requires { line.old ≡ [] }
    ensures { line.new ≡ line_of_auction a.now }
{
    line.begin("auction");
    line.time(a.moment);
    line.number(u64::from(a.symbol));
    line.price(a.reference);
    line.price(a.collars.lower);
    line.price(a.collars.upper);
}

/// The word of a side.
fn side_word(buy: bool) -> &'static str
    ensures word { result.now ≡ side_word buy }
    ensures short { length result.now ≤ 24 }
{
    if buy { "buy" } else { "sell" }
}

/// Writes the line of an order.
fn write_order(line: &mut Line, o: &Order)
    requires { line.old ≡ [] }
    ensures { line.new ≡ line_of_order o.now }
{
    line.begin("order");
    line.word(side_word(o.buy));
    line.optional_price(o.price);
    line.number(u64::from(o.size));
}

/// Whether a line is that of an auction.
fn is_auction(line: &[u8], a: &Auction) -> bool
    ensures { result ≡ bytes_eq line.now (line_of_auction a.now) }
{
    let mut printed = Line::new();
    write_auction(&mut printed, a);
    line == printed.as_slice()
}

/// Whether a line is that of an order.
fn is_order(line: &[u8], o: &Order) -> bool
    ensures { result ≡ bytes_eq line.now (line_of_order o.now) }
{
    let mut printed = Line::new();
    write_order(&mut printed, o);
    line == printed.as_slice()
}

/// Whether a line is that of an auction whose collars are in order.
fn is_auction_in_order(line: &[u8], a: &Auction) -> bool
    ensures { result ≡ (nat_le a.now.collars.lower a.now.collars.upper && bytes_eq line.now (line_of_auction a.now)) }
{
    a.collars.lower <= a.collars.upper && is_auction(line, a)
}

/// Whether a line of at most 255 bytes is that of an auction whose collars are in order.
fn is_line_of_auction(line: &[u8], a: &Auction) -> bool
    ensures { result ≡ is_line_of_auction line.now a.now }
{
    line.len() <= LINE && is_auction_in_order(line, a)
}

/// Whether a line of at most 255 bytes is that of an order.
fn is_line_of_order(line: &[u8], o: &Order) -> bool
    ensures { result ≡ is_line_of_order line.now o.now }
{
    line.len() <= LINE && is_order(line, o)
}

/// The auction that a line prints, with a lower collar that is not above the upper one; none exactly where it prints none.
#[tactic(auto, unfolding(crate::specs::Reading::auction_in))]
pub fn read_auction(line: &[u8]) -> Option<Auction>
    ensures exact { result ≡ auction_in line.now }
    ensures order { IfSome result (λ a. a.collars.lower ≤ a.collars.upper) }
{
    let a = auction(line)?;
    if is_line_of_auction(line, &a) {
        Some(a)
    } else {
        None
    }
}

/// The order that a line prints; none exactly where it prints none.
#[tactic(auto, unfolding(crate::specs::Reading::order_in))]
pub fn read_order(line: &[u8]) -> Option<Order>
    ensures { result ≡ order_in line.now }
{
    let o = order(line)?;
    if is_line_of_order(line, &o) {
        Some(o)
    } else {
        None
    }
}
