//! Theorems about lives.

ghost use Rattle.std.specs.Prelude.{List};
ghost use Rattle.oftp_register.specs.declared.entry.Identity.{Identity};
ghost use Rattle.oftp_engine.specs.Parts.{File};
ghost use Rattle.oftp_life.specs.Acts.{Act};
ghost use Rattle.oftp_life.specs.LifeEvents.{ActsAreEvents};
ghost use Rattle.oftp_life.specs.LifeParts.{ActsMakeTheFile};

use oftp_register::Office;

/// A file comes in parts, in any sessions of a life that break anywhere, with an operator's calls between them. In each content that a crash
/// may leave, nothing of the file is here, or a beginning, or the file as one transfer gives it. The function does nothing; its contract is
/// the theorem.
pub fn lives_make_the_file<O: Office>()
    ensures { (file : File) (identity : Identity) (first now : O) (acts : List Act) → (O.view first).clean → (O.view first).stands
        → ActsMakeTheFile file identity (O.view first) acts (O.view now) }
{}

/// What a life leaves of its acts is what events of two stations leave. Of a session with a third partner it is any number of its changes.
/// They are all, or those before a crash or an error of the office. The partner may send any octets as long as the station accepts no SSID
/// with the other station's code. Of an operator's call it is what the call does. The function does nothing; its contract is the theorem.
pub fn acts_are_events()
    ensures { ActsAreEvents }
{}
