// The two amounts of a consignment.
ghost use Rattle.std.specs.Prelude.{◌≡◌, ◌<◌};

use fields::Hellers;

// Cash on delivery and price, as a record has them: of eleven digits at most, so that sums of them fit.
#[derive(Clone, Copy)]
pub struct Amounts {
    pub cash: Hellers,
    pub price: Hellers,
    ghost cash_small: { cash.0 < 100000000000 },
    ghost price_small: { price.0 < 100000000000 },
}

impl Amounts {
    ghost use Rattle.posting.specs.Sums.{cash_in, price_in};

    pub(crate) fn of(rec: &[u8]) -> Self
        ensures { (result.cash.0 ≡ cash_in rec.now) × (result.price.0 ≡ price_in rec.now) }
    {
        Amounts {
            cash: posting::amount(rec, 16),
            price: posting::amount(rec, 17),
        }
    }
}
