// What a block transfer does, field by field.
use armv7::{ConditionCode, Reg};

#[derive(Clone, Copy)]
pub struct Sheet {
    // Does it load registers, rather than store them?
    pub load: bool,
    // Does the address rise?
    pub add: bool,
    // Does it change before each register, rather than behind it?
    pub pre: bool,
    pub base: Reg,
    // Is the base register changed?
    pub wback: bool,
    // The registers, by the bits 0 to 15.
    pub mask: u16,
    pub condition: ConditionCode,
    pub s: bool,
    // Is the width shown by `.w`?
    pub w: bool,
    // Are they the registers of user mode?
    pub user: bool,
}
