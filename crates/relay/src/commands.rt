//! Calls on a pair.
use rules::How;

/// A call on a pair.
#[derive(Clone, Copy)]
pub enum Call<'a> {
    Connect(How),
    Cut,
    Publish(&'a [u8]),
    Finish,
    Roll,
    /// The hub tells an unsequenced message.
    Tell(&'a [u8]),
    /// The seat says an unsequenced message.
    Say(&'a [u8]),
    Leave,
    HubReceive,
    SeatReceive,
    HubSend,
    SeatSend,
    Tick,
    Round,
}
