//! The arguments of commands, as they are declared to the parser.
ghost use Rattle.std.specs.Prelude.{◌≡◌, ◌∷◌, [], IfOk, Some, false};
ghost use Rattle.clap.specs.Words.{app_of, items_of, new_app, rule_of};
ghost use Rattle.clap.specs.declared.builder.command.Command.TheViews.{out-Command as fields_of};
ghost use Rattle.oftp_command_line.specs.Arguments as spec;
ghost use Rattle.oftp_command_line.specs.Told.{action_of, app_told, is_required, rule_of_kind, told};

use super::table::Declaration;
use clap::builder::ValueParser;
use clap::{Arg, ArgAction, Command};
use std::alloc::{AllocError, Global};

/// The greatest number of a file.
pub(super) const MOST_NO: u64 = 9_999_999;

/// The greatest port.
pub(super) const MOST_PORT: u64 = 65_535;

/// The greatest number of callers to serve.
pub(super) const MOST_CALLERS: u64 = 1_000_000;

/// The longest patience with a partner, in seconds: a day.
pub(super) const MOST_PATIENCE: u64 = 86_400;

/// The longest time for a caller's admission, in seconds: a day.
pub(super) const MOST_ADMISSION: u64 = 86_400;

/// The longest session, in seconds: a day.
pub(super) const MOST_DURATION: u64 = 86_400;

/// The longest interval between the calls of a partner, in seconds: a day.
pub(super) const MOST_INTERVAL: u64 = 86_400;

/// The greatest number of jobs after which a station ends.
pub(super) const MOST_JOBS: u64 = 1_000_000;

/// The greatest age that isn't overdue, in hours: ten years.
pub(super) const MOST_HOURS: u64 = 87_600;

/// The greatest longest record, in octets.
pub(super) const MOST_LONGEST: u64 = 99_999;

/// The greatest reason.
pub(super) const MOST_REASON: u64 = 99;

/// The greatest number of a recorded session.
pub(super) const MOST_SESSION: u64 = 999_999_999;

/// An argument of a command, which takes one value unless it is a flag.
#[derive(Clone, Copy)]
pub struct Argument {
    /// Its name; an option is given as this after `--`.
    pub id: &'static str,
    /// Its placeholder in texts.
    pub shown: &'static str,
    /// What it is, in a line without its end.
    pub help: &'static str,
    /// Its kind.
    pub kind: Kind,
    /// The least and the greatest number, if it takes numbers.
    pub numbers: Option<(u64, u64)>,
}

/// The kind of an argument.
#[derive(Clone, Copy)]
pub enum Kind {
    /// A required word.
    Word,
    /// An optional word.
    Last,
    /// A required option.
    Needed,
    /// An optional option.
    Optional,
    /// An option without a value.
    Flag,
    /// An option with this default.
    Defaulted(&'static str),
}

impl Kind {
    /// Whether it is required.
    fn is_required(self) -> bool
        ensures { result ≡ is_required self }
    {
        match self {
            Kind::Word | Kind::Needed => true,
            Kind::Last | Kind::Optional | Kind::Flag | Kind::Defaulted(_) => false,
        }
    }

    /// What the parser does when it is given.
    fn action(self) -> ArgAction
        ensures { result ≡ action_of self }
    {
        match self {
            Kind::Flag => ArgAction::SetTrue,
            Kind::Word | Kind::Last | Kind::Needed | Kind::Optional | Kind::Defaulted(_) =>
                ArgAction::Set,
        }
    }
}

impl Argument {
    /// Declares the argument to the parser.
    fn told<'a>(self, alloc: Global) -> Arg<'a>
        ensures rule { rule_of result ≡ told self }
        ensures local { result.global ≡ false }
        ensures texts { (items_of result.val_names ≡ self.shown ∷ []) × (result.help ≡ Some self.help) }
    {
        let argument = self.named(alloc);
        match self.numbers {
            None => argument,
            Some((low, high)) => argument.value_parser(ValueParser::unsigned(low, high)),
        }
    }

    /// Declares the argument without the range of its numbers.
    fn named<'a>(self, alloc: Global) -> Arg<'a>
        ensures rule { rule_of result ≡ rule_of_kind self.kind self.id.now }
        ensures local { result.global ≡ false }
        ensures texts { (items_of result.val_names ≡ self.shown ∷ []) × (result.help ≡ Some self.help) }
    {
        let argument = Arg::new(alloc, self.id)
            .action(self.kind.action())
            .required(self.kind.is_required())
            .value_name(self.shown)
            .help(self.help);
        match self.kind {
            Kind::Word | Kind::Last => argument,
            Kind::Needed | Kind::Optional | Kind::Flag => argument.long(self.id),
            Kind::Defaulted(value) => argument.long(self.id).default_value(value),
        }
    }
}

/// Declares a command to the parser, without its arguments.
fn bare_command<'a>(alloc: Global, declaration: Declaration) -> Command<'a>
    ensures app { app_of result ≡ new_app declaration.word.now }
    ensures texts { ((fields_of result).usage_str ≡ Some declaration.usage)
        × ((fields_of result).about ≡ Some declaration.about) }
{
    Command::new(alloc, declaration.word)
        .override_usage(declaration.usage)
        .about(declaration.about)
}

/// Declares a command to the parser.
pub(super) fn command<'a>(
    alloc: Global,
    declaration: Declaration,
) -> Result<Command<'a>, AllocError>
    ensures { IfOk result (λ c. app_of c ≡ app_told declaration.word.now declaration.arguments.now) }
{
    let mut command = bare_command(alloc, declaration);
    for argument in declaration.arguments {
        command = command.arg(argument.told(alloc))?;
    }
    Ok(command)
}
