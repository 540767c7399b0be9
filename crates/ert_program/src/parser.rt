ghost use Rattle.std.specs.Prelude.{◌≡◌, IfOk, false, codes};
ghost use Rattle.clap.specs.{Words.{app_of, rule_of}, declared.builder.command.Command.TheViews.out-Command as fields_of};
ghost use Rattle.ert_program.specs.Apps.{app, bare, live, number, stress};

use clap::{Arg, Command};
use std::alloc::{AllocError, Global};

/// The program's commands, as `clap` is told them. It has no flag and no help of its own.
pub(crate) fn parser<'a>(alloc: Global) -> Result<Command<'a>, AllocError>
    ensures { IfOk result (λ c. app_of c ≡ app) }
{
    bare_parser(alloc)
        .subcommand(Command::new(alloc, "run"))?
        .subcommand(Command::new(alloc, "race"))?
        .subcommand(live_parser(alloc)?)?
        .subcommand(stress_parser(alloc)?)
}

fn bare_parser<'a>(alloc: Global) -> Command<'a>
    ensures app { app_of result ≡ bare }
    ensures local { (fields_of result).has_globals ≡ false }
{
    Command::new(alloc, "ertime")
        .no_binary_name(true)
        .disable_help_flag(true)
        .disable_help_subcommand(true)
        .subcommand_required(true)
}

fn live_parser<'a>(alloc: Global) -> Result<Command<'a>, AllocError>
    ensures app { IfOk result (λ c. app_of c ≡ live) }
    ensures local { IfOk result (λ c. (fields_of c).has_globals ≡ false) }
{
    Command::new(alloc, "live").arg(readings_argument(alloc))
}

fn stress_parser<'a>(alloc: Global) -> Result<Command<'a>, AllocError>
    ensures app { IfOk result (λ c. app_of c ≡ stress) }
    ensures local { IfOk result (λ c. (fields_of c).has_globals ≡ false) }
{
    Command::new(alloc, "stress")
        .arg(seed_argument(alloc))?
        .arg(ops_argument(alloc))
}

fn readings_argument<'a>(alloc: Global) -> Arg<'a>
    ensures rule { rule_of result ≡ number (codes "n") 1 1000 }
    ensures local { result.global ≡ false }
{
    Arg::new(alloc, "n")
        .required(true)
        .value_parser(clap::value_parser!(u64).range(1..=1_000))
}

fn seed_argument<'a>(alloc: Global) -> Arg<'a>
    ensures rule { rule_of result ≡ number (codes "seed") 0 999999999 }
    ensures local { result.global ≡ false }
{
    Arg::new(alloc, "seed")
        .required(true)
        .value_parser(clap::value_parser!(u64).range(0..=999_999_999))
}

fn ops_argument<'a>(alloc: Global) -> Arg<'a>
    ensures rule { rule_of result ≡ number (codes "n") 1 100000 }
    ensures local { result.global ≡ false }
{
    Arg::new(alloc, "n")
        .required(true)
        .value_parser(clap::value_parser!(u64).range(1..=100_000))
}
