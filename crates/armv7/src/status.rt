// The fields of a status register that an instruction writes.
ghost use Rattle.std.specs.Prelude.{◌≡◌, ◌<◌};
ghost use Rattle.armv7.specs.Status.{status_number, status_name};

// A set of fields, by the manual's five bits: 16 for SPSR, then f, s, x and c. Where only f and s are taken of the CPSR the
// manual speaks of the APSR.
#[derive(Clone, Copy)]
pub enum StatusRegMask {
    CPSR_C = 0b0001,
    CPSR_X = 0b0010,
    CPSR_XC = 0b0011,
    APSR_G = 0b0100,
    CPSR_SC = 0b0101,
    CPSR_SX = 0b0110,
    CPSR_SXC = 0b0111,
    APSR_NZCVQ = 0b1000,
    CPSR_FC = 0b1001,
    CPSR_FX = 0b1010,
    CPSR_FXC = 0b1011,
    APSR_NZCVQG = 0b1100,
    CPSR_FSC = 0b1101,
    CPSR_FSX = 0b1110,
    CPSR_FSXC = 0b1111,
    SPSR = 0b10000,
    SPSR_C = 0b10001,
    SPSR_X = 0b10010,
    SPSR_XC = 0b10011,
    SPSR_S = 0b10100,
    SPSR_SC = 0b10101,
    SPSR_SX = 0b10110,
    SPSR_SXC = 0b10111,
    SPSR_F = 0b11000,
    SPSR_FC = 0b11001,
    SPSR_FX = 0b11010,
    SPSR_FXC = 0b11011,
    SPSR_FS = 0b11100,
    SPSR_FSC = 0b11101,
    SPSR_FSX = 0b11110,
    SPSR_FSXC = 0b11111,
}

// By the mask; no mask is 0.
const STATUS_NAMES: [&[u8]; 32] = [
    b"",
    b"cpsr_c",
    b"cpsr_x",
    b"cpsr_xc",
    b"apsr_g",
    b"cpsr_sc",
    b"cpsr_sx",
    b"cpsr_sxc",
    b"apsr_nzcvq",
    b"cpsr_fc",
    b"cpsr_fx",
    b"cpsr_fxc",
    b"apsr_nzcvqg",
    b"cpsr_fsc",
    b"cpsr_fsx",
    b"cpsr_fsxc",
    b"spsr",
    b"spsr_c",
    b"spsr_x",
    b"spsr_xc",
    b"spsr_s",
    b"spsr_sc",
    b"spsr_sx",
    b"spsr_sxc",
    b"spsr_f",
    b"spsr_fc",
    b"spsr_fx",
    b"spsr_fxc",
    b"spsr_fs",
    b"spsr_fsc",
    b"spsr_fsx",
    b"spsr_fsxc",
];

impl StatusRegMask {
    // The five bits.
    pub fn number(&self) -> u8
        ensures value { result ≡ status_number self.now }
        ensures bound { result < 32 }
    {
        *self as u8
    }

    // The name that it is printed under.
    pub fn name(&self) -> &'static [u8]
        ensures value { result.now ≡ status_name self.now }
    {
        STATUS_NAMES[self.number() as usize]
    }
}
