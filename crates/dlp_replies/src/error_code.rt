// Errors that a handheld answers.

/// The error of a reply: 0 none, 1 system, 2 illegal request, 3 memory, 4 parameter, 5 not found, 6 none open, 7 already
/// open, 8 too many open, 9 exists, 10 can't open, 11 record deleted, 12 record busy, 13 not supported, 15 read-only, 16
/// space, 17 limit, 18 cancelled, 19 wrapper, 20 argument, 21 size. A handheld may answer other numbers.
#[derive(Clone, Copy)]
pub struct ErrorCode(pub u16);
