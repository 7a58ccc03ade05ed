//! Why an engine doesn't take an event.

/// Memory is missing, or an event's moment is before that of the last event.
#[derive(Drop, Debug)]
pub enum TakeFault {
    Memory,
    OutOfOrder { moment: i128, last: i128 },
}
