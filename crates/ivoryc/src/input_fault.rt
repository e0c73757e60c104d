//! What is wrong with a file that was loaded, and how it is told.

ghost use Rattle.ivoryc.specs.Calls.{change_of, sink_seen};
ghost use Rattle.ivoryc.specs.Causes.{status_of, line_of};
ghost use Rattle.ivoryc.specs.Steps.{Tells};
ghost use Rattle.module_text.specs.Lines.{fault_line};
ghost use Rattle.ivoryc.specs.declared.status.Status.TheVariants.{Refused as refused};

use crate::broken_rule::BrokenRule;
use crate::c_fault::CTextFault;
use crate::script_fault::script_text;
use crate::status::Status;
use iv_base::{Sink, SinkFault};
use iv_script::ScriptFault;
use module_text::Fault;

/// What is wrong with a file that was loaded.
#[derive(Clone, Copy, Debug, Drop, PartialEq, Eq)]
pub enum InputFault {
    /// It is longer than its limit.
    TooLarge,
    /// The module text has a fault of its tokens or its grammar.
    Module(Fault),
    /// The module breaks a rule.
    Rule(BrokenRule),
    /// The module is not of a form that is built yet.
    NotBuilt,
    /// The C text has a fault.
    CText(CTextFault),
    /// The script does not read, or does not fit what is run.
    Script(ScriptFault),
}

/// Tells a fault on the error output, and answers its status, or `WriteFault` where the error output fails.
pub fn tell_input<E: Sink>(fault: InputFault, err: &mut E) -> Status
    ensures { Tells (line_of fault) (status_of fault) result (change_of (sink_seen E.held E.taken E.faults) err.old err.new) }
{
    match fault {
        InputFault::TooLarge => tell(b"too large\n", Status::TooLarge, err),
        InputFault::Module(fault) => tell_module(fault, err),
        InputFault::Rule(broken) => tell(broken.text().as_bytes(), Status::Refused, err),
        InputFault::NotBuilt => tell(b"not built yet\n", Status::NotBuilt, err),
        InputFault::CText(fault) => tell(fault.text().as_bytes(), Status::Refused, err),
        InputFault::Script(fault) => tell(script_text(fault).as_bytes(), Status::Script, err),
    }
}

/// Puts a line, and answers the status, or `WriteFault` where the error output fails.
pub fn tell<E: Sink>(line: &[u8], status: Status, err: &mut E) -> Status
    ensures { Tells line.now status result (change_of (sink_seen E.held E.taken E.faults) err.old err.new) }
{
    match err.put(line) {
        Ok(()) => status,
        Err(SinkFault) => Status::WriteFault,
    }
}

fn tell_module<E: Sink>(fault: Fault, err: &mut E) -> Status
    ensures { Tells (fault_line fault) refused result (change_of (sink_seen E.held E.taken E.faults) err.old err.new) }
{
    if fault.put(err).is_ok() {
        Status::Refused
    } else {
        Status::WriteFault
    }
}
