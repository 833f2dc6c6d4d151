// Readings of a record's fields: absent, the value as data, or malformed; and the writings of weight and money.
#![tactic(auto)]

mod amounts; // 15 to 17: weight and money
mod dates; // 2 and 3: date and time
mod numbers; // 12, 21, 23, 24: telephone, variable symbol, serial, pieces
mod others; // 6, 14, 19, 22, 25: country, status, main consignment, and those that stay blank
mod postcodes; // 5: postcode, by country
mod reading; // what a reading is
mod services; // 18: services
mod texts; // 4, 7 to 11, 13, 20, 26: texts and e-mail

pub use amounts::{
    Grams, Hellers, MoneyReading, WeightReading, read_money, read_weight, write_money, write_weight,
};
pub use dates::{DateReading, TimeReading, read_date, read_time};
pub use numbers::{NumberReading, read_count, read_symbol, read_telephone};
pub use others::{
    Country, CountryReading, EmptyReading, MainReading, StatusReading, read_country, read_empty,
    read_main, read_status,
};
pub use postcodes::{Postcode, PostcodeReading, read_postcode};
pub use reading::{Malformed, Reading};
pub use services::{Services, ServicesReading, read_services};
pub use texts::{TextReading, all_text, read_mail, read_text};
