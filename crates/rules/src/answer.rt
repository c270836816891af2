// What an end answers, each with its number in the rules.

#[derive(Clone, Copy)]
pub enum Answer {
    // The event was handled.
    Handled = 0,
    // A setting is out of range: no end is made.
    OutOfRange = 1,
    // The clock went back.
    ClockBack = 2,
    // The event has no rule in this state.
    NoRule = 3,
    // User data of no bytes or of too many.
    BadLength = 4,
    // User data must wait, and eight wait already.
    QueueFull = 5,
    // A message that is not well formed.
    Malformed = 6,
    // Not the message that is awaited.
    NotAwaited = 7,
    // Echo, spread or minimum wrong.
    StartFailed = 8,
    // A number that was accepted before, or is too far behind.
    Old = 9,
    // Too many messages missing.
    Lost = 10,
    // Too old by the clock.
    Late = 11,
    // Nothing heard, or no start, for too long.
    Silent = 12,
    // Delivered, with messages missing before it.
    Gap = 13,
    // The lent output is too short.
    NoRoom = 14,
}
