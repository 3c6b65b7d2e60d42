// Document 01, "MADT structures": for each of the seven kinds its type number, its length, and the structure made from its
// bytes, and of CORE what its flags say. Every maker answers for any bytes; a byte past the end counts as 0. A maker is a function
// `from_bytes` and no `From` of a slice: document 01 fixes the form, a function that makes it from bytes.
ghost use Rattle.std.specs.Prelude.{◌≡◌};
ghost use Rattle.kinds.specs.Makers.{core_of, lio_of, ht_of, eio_of, msi_of, bio_of, with_pins, lpc_of, reserved_flags, is_enabled};

use crate::{Bio, Eio, Half, Ht, Lio, Lpc, Msi};

// A processor: its UID, its physical ID, and its flags.
#[derive(Clone, Copy)]
pub struct Core {
    pub uid: u32,
    pub id: u32,
    pub flags: u32,
}

impl Core {
    pub const TYPE: u8 = 17;

    pub const LENGTH: u8 = 15;

    pub fn from_bytes(structure: &[u8]) -> Core
        ensures { result ≡ core_of structure.now }
    {
        Core {
            uid: words::u32_at(structure, 3),
            id: words::u32_at(structure, 7),
            flags: words::u32_at(structure, 11),
        }
    }

    // 35: a flag other than bit 0.
    pub fn reserved_flags(self) -> bool
        ensures { result ≡ reserved_flags self }
    {
        1 < self.flags
    }

    // Bit 0 of the flags.
    pub fn is_enabled(self) -> bool
        ensures { result ≡ is_enabled self }
    {
        self.flags % 2 == 1
    }
}

impl Lio {
    pub const TYPE: u8 = 18;

    pub const LENGTH: u8 = 23;

    // Byte 13 goes with the mask at 15, byte 14 with the mask at 19.
    pub fn from_bytes(structure: &[u8]) -> Lio
        ensures { result ≡ lio_of structure.now }
    {
        let low = Half {
            cascade: words::byte_at(structure, 13),
            mask: words::u32_at(structure, 15),
        };
        let high = Half {
            cascade: words::byte_at(structure, 14),
            mask: words::u32_at(structure, 19),
        };
        Lio {
            present: true,
            low,
            high,
        }
    }
}

impl Ht {
    pub const TYPE: u8 = 19;

    pub const LENGTH: u8 = 21;

    pub fn from_bytes(structure: &[u8]) -> Ht
        ensures { result ≡ ht_of structure.now }
    {
        let bytes = std::array::from_fn(|i| words::byte_at(structure, 13 + i));
        Ht {
            present: true,
            bytes,
        }
    }
}

impl Eio {
    pub const TYPE: u8 = 20;

    pub const LENGTH: u8 = 13;

    pub fn from_bytes(structure: &[u8]) -> Eio
        ensures { result ≡ eio_of structure.now }
    {
        Eio {
            cascade: words::byte_at(structure, 3),
            node: words::byte_at(structure, 4),
            nodes: words::u64_at(structure, 5),
        }
    }
}

impl Msi {
    pub const TYPE: u8 = 21;

    pub const LENGTH: u8 = 19;

    pub fn from_bytes(structure: &[u8]) -> Msi
        ensures { result ≡ msi_of structure.now }
    {
        Msi {
            start: words::u32_at(structure, 11),
            count: words::u32_at(structure, 15),
        }
    }
}

impl Bio {
    pub const TYPE: u8 = 22;

    pub const LENGTH: u8 = 17;

    // The structure has no field for the inputs: a bridge has 64, unless its capture says how many.
    pub const PINS: u16 = 64;

    pub fn from_bytes(structure: &[u8]) -> Bio
        ensures { result ≡ bio_of structure.now }
    {
        Bio {
            node: words::u16_at(structure, 13),
            base: words::u16_at(structure, 15),
            pins: Bio::PINS,
        }
    }

    // The same bridge with so many inputs.
    pub fn with_pins(self, pins: u16) -> Bio
        ensures { result ≡ with_pins pins self }
    {
        Bio { pins, ..self }
    }
}

impl Lpc {
    pub const TYPE: u8 = 23;

    pub const LENGTH: u8 = 15;

    // The node stands in an address from bit 44 on, and is one of 16.
    pub const NODE_FROM: u64 = 44;

    pub const NODES: u64 = 16;

    pub fn from_bytes(structure: &[u8]) -> Lpc
        ensures { result ≡ lpc_of structure.now }
    {
        let base = words::u64_at(structure, 3);
        Lpc {
            present: true,
            node: ((base >> Lpc::NODE_FROM) % Lpc::NODES) as u16,
            cascade: words::u16_at(structure, 13),
        }
    }
}
