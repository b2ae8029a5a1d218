//! The numbers of the function keys in sequences, which the table and the encoder share: up to F20 those of xterm, and 42 to 45
//! for F21 to F24, as termwiz encodes them.

/// The codes of F1 to F20, with the number of each.
pub const FUNCTION_CODES: &[(u8, u8)] = &[
    (11, 1),
    (12, 2),
    (13, 3),
    (14, 4),
    (15, 5),
    (17, 6),
    (18, 7),
    (19, 8),
    (20, 9),
    (21, 10),
    (23, 11),
    (24, 12),
    (25, 13),
    (26, 14),
    (28, 15),
    (29, 16),
    (31, 17),
    (32, 18),
    (33, 19),
    (34, 20),
];

/// The codes of F21 to F24, with the number of each.
pub const HIGH_FUNCTION_CODES: &[(u8, u8)] = &[(42, 21), (43, 22), (44, 23), (45, 24)];
