// The names of control registers.
ghost use Rattle.std.specs.Prelude.{◌≡◌, ◌++◌, codes};
ghost use Rattle.armv7.specs.Registers.{creg_number};
ghost use Rattle.sink.specs.Printed.{Prints};
ghost use Rattle.visitor.specs.Texts.{spanned, decimal};

use armv7::{CReg, Fault};
use sink::DisplaySink;
use text::write_spanned;

const CREG_NAMES: [&[u8]; 16] = [
    b"c0", b"c1", b"c2", b"c3", b"c4", b"c5", b"c6", b"c7", b"c8", b"c9", b"c10", b"c11", b"c12",
    b"c13", b"c14", b"c15",
];

fn creg_name(reg: CReg) -> &'static [u8]
    ensures { result.now ≡ codes "c" ++ decimal (creg_number reg) }
{
    CREG_NAMES[reg as usize]
}

pub(crate) fn write_creg<T: DisplaySink>(out: &mut T, reg: CReg) -> Result<(), Fault>
    ensures { Prints T.sink (spanned (codes "c" ++ decimal (creg_number reg))) out.old result out.new }
{
    write_spanned(out, creg_name(reg))
}
