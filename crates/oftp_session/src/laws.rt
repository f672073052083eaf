//! Theorems about sessions: each is the contract of a function that does nothing.

ghost use Rattle.std.specs.Prelude.{◌≡◌};
ghost use Rattle.oftp_wire.specs.declared.command.Command.{Command};
ghost use Rattle.oftp_register.specs.Register.{Register};
ghost use Rattle.oftp_session.specs.Phases.{AwaitingSsid, ResponderOpening};
ghost use Rattle.oftp_session.specs.Settings.{Setting};
ghost use Rattle.oftp_session.specs.Steps.{came, turned};

/// Until a caller is admitted, no step depends on the register. The greeting, and the answer to the caller's SSID, are the same over any
/// two. So a caller that isn't admitted can be answered over an empty register. The function does nothing; its contract is the theorem.
pub fn admissions_ask_no_register()
    ensures greets { (setting : Setting) (r s : Register) → turned setting ResponderOpening r ≡ turned setting ResponderOpening s }
    ensures answers { (setting : Setting) (r s : Register) (command : Command)
        → came setting AwaitingSsid r command ≡ came setting AwaitingSsid s command }
{}
