// The manual's spelling of block transfers and of the pops and pushes of one register, straight to a sink.
#![tactic(auto)]

ghost use Rattle.std.specs.Prelude.{Bool};
ghost use Rattle.armv7.specs.declared.condition.ConditionCode.{ConditionCode};
ghost use Rattle.manual.specs.Plain.{PlainLines};
ghost use Rattle.manual.specs.Worked.{WorkedManualLines};

mod line;

pub use line::visit_manual;

// The worked manual lines hold of the definitions.
pub fn worked_manual_lines_hold()
    ensures worked { WorkedManualLines }
{}

// A manual line is the printed line of the same instruction without s and without the opcode's own write-back flag.
pub fn manual_lines_are_plain()
    ensures plain { (c : ConditionCode) (wide w thumb : Bool) → PlainLines c wide w thumb }
{}
