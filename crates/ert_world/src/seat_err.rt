/// Why a world gives out no seat.
#[derive(Clone, Copy, Debug, PartialEq, Eq)]
pub enum SeatErr {
    /// Every caller but 0 has a seat.
    NoSeat,
    /// There is no memory.
    NoMemory,
}
