// Where the pairing stands on each side.

/// The front of one side. The order at the place `rank`, counted from 1, has `open` still to trade, and `left` is to be laid over the
/// orders behind it.
// None begun and none open are one case, 0: in both, the order next in rank is begun. An `Option` would make two of it.
#[derive(Clone, Copy)]
pub(crate) struct Front {
    pub(crate) rank: usize,
    pub(crate) number: u32,
    pub(crate) open: u32,
    pub(crate) left: u32,
}

/// The fronts of both sides.
#[derive(Clone, Copy)]
pub(crate) struct Fronts {
    pub(crate) buys: Front,
    pub(crate) sells: Front,
}
