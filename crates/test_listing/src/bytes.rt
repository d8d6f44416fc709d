// Bytes that are written one field after the other.

// The next field goes to `at`. Past the end nothing is written; the sheets and plans of this program end before or at it.
#[derive(Clone, Copy)]
pub struct Bytes {
    pub bytes: [u8; 302],
    pub at: usize,
}

impl Bytes {
    pub fn new(fill: u8) -> Bytes {
        Bytes {
            bytes: [fill; 302],
            at: 0,
        }
    }

    fn with_byte(self, byte: u8) -> Bytes {
        let mut next = self;
        if let Some(place) = next.bytes.get_mut(self.at) {
            *place = byte;
            next.at = self.at + 1;
        }
        next
    }

    pub fn with(self, field: &[u8]) -> Bytes {
        field.iter().fold(self, |next, &byte| next.with_byte(byte))
    }

    // The low byte of a value, the lowest two, four or eight.
    pub fn with8(self, value: u64) -> Bytes {
        self.with(&value.to_le_bytes()[..1])
    }

    pub fn with16(self, value: u64) -> Bytes {
        self.with(&value.to_le_bytes()[..2])
    }

    pub fn with32(self, value: u64) -> Bytes {
        self.with(&value.to_le_bytes()[..4])
    }

    pub fn with64(self, value: u64) -> Bytes {
        self.with(&value.to_le_bytes())
    }
}
