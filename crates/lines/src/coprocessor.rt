// The numbers inside a coprocessor form's opcode.
ghost use Rattle.std.specs.Prelude.{◌≡◌};
ghost use Rattle.sink.specs.Outcome.{outcome};
ghost use Rattle.lines.specs.Admission.{code_refused, codes_refused, optional_refused};

use armv7::Fault;
use kind::Codes;

// A code is a number up to 15.
fn admit_code(code: u8) -> Result<(), Fault>
    ensures refusal { outcome result ≡ code_refused code }
{
    if code > 15 {
        return Err(Fault::CodeNumber);
    }
    Ok(())
}

fn admit_optional(code: Option<u8>) -> Result<(), Fault>
    ensures refusal { outcome result ≡ optional_refused code }
{
    code.map_or(Ok(()), admit_code)
}

// All of them, in order.
pub(crate) fn admit_codes(codes: Codes) -> Result<(), Fault>
    ensures refusal { outcome result ≡ codes_refused codes }
{
    admit_code(codes.coprocessor)?;
    admit_optional(codes.second)?;
    admit_optional(codes.third)
}
