// 01's trial books: kind 1 records, in hex.

// 0 by letter 0 to 1, 1 by letter 1 to 2, 2 by letter 2 to 1; state 1 accepts.
pub const A: &[u8] = b"18 00 01 00 03 03 00 02 00 00 00 00 00 00 00 01 FF FF FF 02 FF FF FF 01";

// Letters 0, 1, 2: 0 by 0 or 1 to 1, 1 by 2 to 2; state 2 accepts.
pub const B: &[u8] = b"18 00 01 00 03 03 00 04 00 00 00 00 00 00 00 01 01 FF FF FF 02 FF FF FF";

// One accepting state, which loops on letters 0, 1.
pub const C: &[u8] = b"11 00 01 00 01 02 00 01 00 00 00 00 00 00 00 00 00";
