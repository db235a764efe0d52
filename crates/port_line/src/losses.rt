//! What goes wrong on a cable in memory.

/// What goes wrong on a cable in memory: which packets are lost on each way, by their number on it, and
/// before which reads the handheld's clock ticks once more, by their number among those that don't go
/// on with a packet. Each first one has the number 0.
#[derive(Drop)]
pub struct Losses {
    pub toward: Vec<u32>,
    pub back: Vec<u32>,
    pub ticks: Vec<u32>,
}
