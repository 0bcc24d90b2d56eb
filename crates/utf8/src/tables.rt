// The two tables of the UTF-8 test. Their rules are in specs/Classes.antt, and are proved over all entries.

// The class of each octet.
pub const CLASSES: [u8; 256] = [
    0, // 00 to 7F: a character by itself
    0, 0, 0, 0, 0, 0, 0, 0, 0, 0, 0, 0, 0, 0, 0, 0, 0, 0, 0, 0, 0, 0, 0, 0, 0, 0, 0, 0, 0, 0, 0, 0,
    0, 0, 0, 0, 0, 0, 0, 0, 0, 0, 0, 0, 0, 0, 0, 0, 0, 0, 0, 0, 0, 0, 0, 0, 0, 0, 0, 0, 0, 0, 0, 0,
    0, 0, 0, 0, 0, 0, 0, 0, 0, 0, 0, 0, 0, 0, 0, 0, 0, 0, 0, 0, 0, 0, 0, 0, 0, 0, 0, 0, 0, 0, 0, 0,
    0, 0, 0, 0, 0, 0, 0, 0, 0, 0, 0, 0, 0, 0, 0, 0, 0, 0, 0, 0, 0, 0, 0, 0, 0, 0, 0, 0, 0, 0, 0, 1, // 80 to 8F
    1, 1, 1, 1, 1, 1, 1, 1, 1, 1, 1, 1, 1, 1, 1, 2, // 90 to 9F
    2, 2, 2, 2, 2, 2, 2, 2, 2, 2, 2, 2, 2, 2, 2, 3, // A0 to BF
    3, 3, 3, 3, 3, 3, 3, 3, 3, 3, 3, 3, 3, 3, 3, 3, 3, 3, 3, 3, 3, 3, 3, 3, 3, 3, 3, 3, 3, 3, 3,
    11, // C0, C1: begin nothing
    11, 4, // C2 to DF: one octet follows
    4, 4, 4, 4, 4, 4, 4, 4, 4, 4, 4, 4, 4, 4, 4, 4, 4, 4, 4, 4, 4, 4, 4, 4, 4, 4, 4, 4, 4, 5, // E0: no overlong form
    6, // E1 to EC: two octets follow
    6, 6, 6, 6, 6, 6, 6, 6, 6, 6, 6, 7, // ED: no surrogate
    6, // EE, EF
    6, 8, // F0: no overlong form
    9, // F1 to F3: three octets follow
    9, 9, 10, // F4: nothing past U+10FFFF
    11, // F5 to FF: begin nothing
    11, 11, 11, 11, 11, 11, 11, 11, 11, 11,
];

// What is due after an octet: a row for each number of specs/Classes.antt, a column for each class.
pub const STEPS: [u8; 96] = [
    0, 8, 8, 8, 1, 4, 2, 5, 6, 3, 7, 8, 8, 0, 0, 0, 8, 8, 8, 8, 8, 8, 8, 8, 8, 1, 1, 1, 8, 8, 8, 8,
    8, 8, 8, 8, 8, 2, 2, 2, 8, 8, 8, 8, 8, 8, 8, 8, 8, 8, 8, 1, 8, 8, 8, 8, 8, 8, 8, 8, 8, 1, 1, 8,
    8, 8, 8, 8, 8, 8, 8, 8, 8, 8, 2, 2, 8, 8, 8, 8, 8, 8, 8, 8, 8, 2, 8, 8, 8, 8, 8, 8, 8, 8, 8, 8,
];
