// The numbers that tables are drawn from: splitmix64, and a hash of the bits that come out.

#[derive(Drop)]
pub(crate) struct Random {
    state: u64,
}

impl Random {
    pub(crate) fn new(seed: u64) -> Random {
        Random { state: seed }
    }

    pub(crate) fn next(&mut self) -> u64 {
        self.state = self.state.wrapping_add(0x9E37_79B9_7F4A_7C15);
        let mut z = self.state;
        z = (z ^ (z >> 30)).wrapping_mul(0xBF58_476D_1CE4_E5B9);
        z = (z ^ (z >> 27)).wrapping_mul(0x94D0_49BB_1331_11EB);
        z ^ (z >> 31)
    }
}

// FNV-1a over the little-endian bytes of the bits.
#[derive(Clone, Copy)]
pub(crate) struct Hash {
    pub(crate) state: u64,
}

impl Hash {
    pub(crate) fn new() -> Hash {
        Hash {
            state: 0xCBF2_9CE4_8422_2325,
        }
    }

    pub(crate) fn bytes(self, bytes: &[u8]) -> Hash {
        let state = bytes.iter().fold(self.state, |state, b| {
            (state ^ u64::from(*b)).wrapping_mul(0x100_0000_01B3)
        });
        Hash { state }
    }
}
