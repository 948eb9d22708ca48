//! Laws of the lines of an auction.

ghost use Rattle.auction_core.specs.Laws.{AuctionsAreRead, LinesHaveText, OrdersAreRead, TextsAreSame};

/// Each input has just one text: its lines have one cross and one list of fills.
pub fn sends_its_cross()
    ensures exists { LinesHaveText }
    ensures same { TextsAreSame }
{}

/// The line of each auction and of each order is read as that one.
pub fn lines_are_read()
    ensures auctions { AuctionsAreRead }
    ensures orders { OrdersAreRead }
{}
