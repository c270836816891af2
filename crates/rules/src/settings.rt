// The numbers that the installer sets.

#[derive(Clone, Copy)]
pub struct Settings {
    // A: how old a message may be.
    pub age: u32,
    // W: how wide the offsets may lie apart.
    pub spread: u32,
    // R: how long the peer may be silent.
    pub silence: u32,
    // S: after how long a life sign is sent.
    pub life_sign: u32,
    // T: how long a start may take.
    pub wait: u32,
    // C: after how long an initiator asks again.
    pub retry: u32,
    // N: how far a sequence number may jump.
    pub jump: u16,
    // E: at how many failures in a row the link goes down.
    pub errors: u8,
}
