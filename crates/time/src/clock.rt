// What a local clock shows: a date, and a second of its day. An ISO line is written from it.
use calendar::Date;

#[derive(Clone, Copy)]
pub struct Clock {
    pub date: Date,
    pub second: u64,
}
