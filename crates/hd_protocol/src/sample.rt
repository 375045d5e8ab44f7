//! The dump that is served where no file is named.

/// Two object arrays of four-byte IDs: 0x1 holds 0x2, null and 0x9, which is no object; 0x2 is empty. A root is on 0x1.
pub const SAMPLE: [u8; 91] = [
    // the header: the format's name, an ID size of 4, time 0
    0x4a, 0x41, 0x56, 0x41, 0x20, 0x50, 0x52, 0x4f, 0x46, 0x49, 0x4c, 0x45, 0x20, 0x31, 0x2e, 0x30,
    0x2e, 0x32, 0x00, 0, 0, 0, 4, 0, 0, 0, 0, 0, 0, 0, 0,
    // HEAP DUMP SEGMENT of 51 bytes
    0x1c, 0, 0, 0, 0, 0, 0, 0, 51,
    // ROOT UNKNOWN: 0x1
    0xff, 0, 0, 0, 1,
    // OBJECT ARRAY DUMP: 0x1, no stack trace, 3 elements, no class; 0x2, null, 0x9
    0x22, 0, 0, 0, 1, 0, 0, 0, 0, 0, 0, 0, 3, 0, 0, 0, 0, 0, 0, 0, 2, 0, 0, 0, 0, 0, 0, 0, 9,
    // OBJECT ARRAY DUMP: 0x2, no stack trace, no element, no class
    0x22, 0, 0, 0, 2, 0, 0, 0, 0, 0, 0, 0, 0, 0, 0, 0, 0,
];
