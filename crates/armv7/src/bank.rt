// The register banks.
ghost use Rattle.std.specs.Prelude.{◌≡◌};
ghost use Rattle.armv7.specs.Banks.{bank_name};

// The mode whose copy of a register is meant.
#[derive(Clone, Copy, PartialEq, Eq)]
pub enum Bank {
    Usr,
    Fiq,
    Irq,
    Svc,
    Abt,
    Und,
    Mon,
    Hyp,
}

const BANK_NAMES: [&[u8]; 8] = [
    b"usr", b"fiq", b"irq", b"svc", b"abt", b"und", b"mon", b"hyp",
];

impl Bank {
    // The three letters that it is printed under.
    pub fn name(&self) -> &'static [u8]
        ensures value { result.now ≡ bank_name self.now }
    {
        BANK_NAMES[*self as usize]
    }
}
