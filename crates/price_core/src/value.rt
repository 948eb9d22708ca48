//! Prices, in ten-thousandths of a dollar.

ghost use Rattle.std.specs.Prelude.{◌≡◌, ◌≤◌, ◌↔◌, IsOk, IfOk, IfSome};
ghost use Rattle.price_core.specs.Absence.{price_or_none, units_or_zero};
ghost use Rattle.price_core.specs.Ranges.{IsPrice, IsIndex, IsLeverage};

use crate::error::OutOfRange;
use std::marker::Model;

/// A price in ten-thousandths of a dollar, from 1 to 99,999,999,999.
#[derive(Clone, Copy, Debug, PartialEq, Eq, PartialOrd, Ord)]
pub struct Price {
    units: u64,
}

impl Model for Price {
    ghost use Rattle.std.specs.Prelude.{ℕ};
    ghost use Rattle.price_core.specs.Ranges.{IsPrice};

    ghost Value = { ℕ };

    ghost view = { λ price. price.units };

    ghost invariant = { λ price. IsPrice price.units };

    ghost inverse = { λ n. record { units = n } };
}

impl Price {
    /// The price of a number of ten-thousandths of a dollar, an error exactly outside the range.
    pub fn new(units: u64) -> Result<Price, OutOfRange>
        ensures range { IsOk result ↔ IsPrice units }
        ensures value { IfOk result (λ price. price ≡ units) }
    {
        if units < 1 || units > 99_999_999_999 {
            return Err(OutOfRange);
        }
        Ok(Price { units })
    }

    /// The price of a number of ten-thousandths of a dollar that is known to be in the range.
    pub fn of(units: u64) -> Price
        requires { IsPrice units }
        ensures { result ≡ units }
    {
        Price { units }
    }

    /// The price in ten-thousandths of a dollar.
    pub fn units(self) -> u64
        ensures value { result ≡ self }
        ensures range { IsPrice result }
    {
        self.units
    }
}

/// A price that may be absent, in one word.
#[derive(Clone, Copy, Debug, PartialEq, Eq)]
pub struct OptionalPrice {
    /// 0 where the price is absent.
    units: u64,
}

impl Model for OptionalPrice {
    ghost use Rattle.std.specs.Prelude.{ℕ, ◌≤◌, Option};
    ghost use Rattle.price_core.specs.Absence.{price_or_none, units_or_zero, units_again};

    ghost Value = { Option ℕ };

    ghost view = { λ price. price_or_none price.units };

    ghost invariant = { λ price. price.units ≤ 99999999999 };

    ghost inverse = { λ price. record { units = units_or_zero price } };

    ghost inverse_ok = { λ price _ i. record { units = units_again price.units i } };
}

impl OptionalPrice {
    /// The price of a number of ten-thousandths of a dollar, absent at 0; an error exactly where the number is neither 0 nor
    /// in the range.
    pub fn new(units: u64) -> Result<OptionalPrice, OutOfRange>
        ensures range { IsOk result ↔ (units ≤ 99999999999) }
        ensures value { IfOk result (λ price. price ≡ price_or_none units) }
    {
        if units > 99_999_999_999 {
            return Err(OutOfRange);
        }
        Ok(OptionalPrice { units })
    }

    /// A price, or that it is absent.
    pub fn of(price: Option<Price>) -> OptionalPrice
        ensures { result ≡ price }
    {
        OptionalPrice {
            units: price.map_or(0, Price::units),
        }
    }

    /// The price, where it isn't absent.
    pub fn get(self) -> Option<Price>
        ensures { result ≡ self }
    {
        if self.units == 0 {
            None
        } else {
            Some(Price { units: self.units })
        }
    }

    /// The price in ten-thousandths of a dollar, or 0 where it is absent.
    pub fn units(self) -> u64
        ensures value { result ≡ units_or_zero self }
        ensures range { IfSome self IsPrice }
    {
        self.units
    }
}

/// An index value in hundredths of an index point, from 1 to 99,999,999.
#[derive(Clone, Copy, Debug, PartialEq, Eq, PartialOrd, Ord)]
pub struct Index {
    hundredths: u32,
}

impl Model for Index {
    ghost use Rattle.std.specs.Prelude.{ℕ};
    ghost use Rattle.price_core.specs.Ranges.{IsIndex};

    ghost Value = { ℕ };

    ghost view = { λ index. index.hundredths };

    ghost invariant = { λ index. IsIndex index.hundredths };

    ghost inverse = { λ n. record { hundredths = n } };
}

impl Index {
    /// The value of a number of hundredths of an index point, an error exactly outside the range.
    pub fn new(hundredths: u32) -> Result<Index, OutOfRange>
        ensures range { IsOk result ↔ IsIndex hundredths }
        ensures value { IfOk result (λ index. index ≡ hundredths) }
    {
        if hundredths < 1 || hundredths > 99_999_999 {
            return Err(OutOfRange);
        }
        Ok(Index { hundredths })
    }

    /// The value in hundredths of an index point.
    pub fn hundredths(self) -> u32
        ensures value { result ≡ self }
        ensures range { IsIndex result }
    {
        self.hundredths
    }
}

/// The leverage ratio of an exchange-traded product in tenths, from 10 to 50; 10 for a stock.
#[derive(Clone, Copy, Debug, PartialEq, Eq, PartialOrd, Ord)]
pub struct Leverage {
    tenths: u8,
}

impl Model for Leverage {
    ghost use Rattle.std.specs.Prelude.{ℕ};
    ghost use Rattle.price_core.specs.Ranges.{IsLeverage};

    ghost Value = { ℕ };

    ghost view = { λ leverage. leverage.tenths };

    ghost invariant = { λ leverage. IsLeverage leverage.tenths };

    ghost inverse = { λ n. record { tenths = n } };
}

impl Leverage {
    /// The ratio of a number of tenths, an error exactly outside the range.
    pub fn new(tenths: u8) -> Result<Leverage, OutOfRange>
        ensures range { IsOk result ↔ IsLeverage tenths }
        ensures value { IfOk result (λ leverage. leverage ≡ tenths) }
    {
        if tenths < 10 || tenths > 50 {
            return Err(OutOfRange);
        }
        Ok(Leverage { tenths })
    }

    /// The ratio in tenths.
    pub fn tenths(self) -> u8
        ensures value { result ≡ self }
        ensures range { IsLeverage result }
    {
        self.tenths
    }
}
