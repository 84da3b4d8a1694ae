// What `clap` is told of the commands.
ghost use Rattle.std.specs.Prelude.{◌≡◌, IfOk, false};
ghost use Rattle.clap.specs.Words.{app_of, rule_of, with_subcommand};
ghost use Rattle.clap.specs.declared.builder.command.Command.TheViews.{out-Command};
ghost use Rattle.wt_line.specs.App.{create_app, dump_app, list_app, load_app, read_app, script_app, top_app, verify_app, write_app, wt_app, items_rule, one_uri_rule, uri_rule};

use clap::{Arg, ArgAction, Command};
use std::alloc::{AllocError, Global};

// The program: one of the commands.
pub(crate) fn app<'a>(alloc: Global) -> Result<Command<'a>, AllocError>
    ensures { IfOk result (λ c. app_of c ≡ wt_app) }
{
    let program = with_rows(alloc, top(alloc))?;
    let program = with_looks(alloc, program)?;
    with_dumps(alloc, program)
}

// With the commands that make a table, and put and get rows of it.
fn with_rows<'a>(alloc: Global, program: Command<'a>) -> Result<Command<'a>, AllocError>
    ensures { IfOk result (λ c. app_of c ≡ with_subcommand (with_subcommand (with_subcommand (app_of program.entry) create_app.top) write_app.top) read_app.top) }
{
    let program = with_command(program, create(alloc)?)?;
    let program = with_command(program, write(alloc)?)?;
    with_command(program, read(alloc)?)
}

// With those that look at the whole device, and the one that runs a script.
fn with_looks<'a>(alloc: Global, program: Command<'a>) -> Result<Command<'a>, AllocError>
    ensures { IfOk result (λ c. app_of c ≡ with_subcommand (with_subcommand (with_subcommand (app_of program.entry) list_app.top) verify_app.top) script_app.top) }
{
    let program = with_command(program, list(alloc))?;
    let program = with_command(program, verify(alloc)?)?;
    with_command(program, script(alloc))
}

// With those that write and read a table as a text.
fn with_dumps<'a>(alloc: Global, program: Command<'a>) -> Result<Command<'a>, AllocError>
    ensures { IfOk result (λ c. app_of c ≡ with_subcommand (with_subcommand (app_of program.entry) dump_app.top) load_app.top) }
{
    let program = with_command(program, dump(alloc)?)?;
    with_command(program, load(alloc)?)
}

// With one more.
fn with_command<'a>(program: Command<'a>, command: Command<'a>) -> Result<Command<'a>, AllocError>
    requires { (out-Command command).has_globals ≡ false }
    ensures { IfOk result (λ c. app_of c ≡ with_subcommand (app_of program.entry) (app_of command.entry).top) }
{
    program.subcommand(command)
}

fn top<'a>(alloc: Global) -> Command<'a>
    ensures { app_of result ≡ top_app }
{
    Command::new(alloc, "wt")
        .no_binary_name(true)
        .subcommand_required(true)
}

// The table that a command speaks of.
fn uri<'a>(alloc: Global) -> Arg<'a>
    ensures rule { rule_of result ≡ uri_rule }
    ensures local { result.global ≡ false }
{
    Arg::new(alloc, "uri").required(true)
}

// The words behind the table: one or more.
fn items<'a>(alloc: Global) -> Arg<'a>
    ensures rule { rule_of result ≡ items_rule }
    ensures local { result.global ≡ false }
{
    Arg::new(alloc, "items").required(true).num_args(1..)
}

// create [-c config] uri
fn create<'a>(alloc: Global) -> Result<Command<'a>, AllocError>
    ensures app { IfOk result (λ c. app_of c ≡ create_app) }
    ensures local { IfOk result (λ c. (out-Command c).has_globals ≡ false) }
{
    let config = Arg::new(alloc, "config").short('c');
    Command::new(alloc, "create").arg(config)?.arg(uri(alloc))
}

// write [-o] uri key value ..
fn write<'a>(alloc: Global) -> Result<Command<'a>, AllocError>
    ensures app { IfOk result (λ c. app_of c ≡ write_app) }
    ensures local { IfOk result (λ c. (out-Command c).has_globals ≡ false) }
{
    let overwrite = Arg::new(alloc, "overwrite")
        .short('o')
        .action(ArgAction::SetTrue);
    Command::new(alloc, "write")
        .arg(overwrite)?
        .arg(uri(alloc))?
        .arg(items(alloc))
}

fn list<'a>(alloc: Global) -> Command<'a>
    ensures app { app_of result ≡ list_app }
    ensures local { (out-Command result).has_globals ≡ false }
{
    Command::new(alloc, "list")
}

// verify [uri]
fn verify<'a>(alloc: Global) -> Result<Command<'a>, AllocError>
    ensures app { IfOk result (λ c. app_of c ≡ verify_app) }
    ensures local { IfOk result (λ c. (out-Command c).has_globals ≡ false) }
{
    Command::new(alloc, "verify").arg(one_uri(alloc))
}

// The table that a command speaks of, where it speaks of one.
fn one_uri<'a>(alloc: Global) -> Arg<'a>
    ensures rule { rule_of result ≡ one_uri_rule }
    ensures local { result.global ≡ false }
{
    Arg::new(alloc, "uri")
}

fn script<'a>(alloc: Global) -> Command<'a>
    ensures app { app_of result ≡ script_app }
    ensures local { (out-Command result).has_globals ≡ false }
{
    Command::new(alloc, "script")
}

// read uri key ..
fn read<'a>(alloc: Global) -> Result<Command<'a>, AllocError>
    ensures app { IfOk result (λ c. app_of c ≡ read_app) }
    ensures local { IfOk result (λ c. (out-Command c).has_globals ≡ false) }
{
    Command::new(alloc, "read")
        .arg(uri(alloc))?
        .arg(items(alloc))
}

// dump [-x] [-r] uri
fn dump<'a>(alloc: Global) -> Result<Command<'a>, AllocError>
    ensures app { IfOk result (λ c. app_of c ≡ dump_app) }
    ensures local { IfOk result (λ c. (out-Command c).has_globals ≡ false) }
{
    let hex = Arg::new(alloc, "hex").short('x').action(ArgAction::SetTrue);
    let reverse = Arg::new(alloc, "reverse")
        .short('r')
        .action(ArgAction::SetTrue);
    Command::new(alloc, "dump")
        .arg(hex)?
        .arg(reverse)?
        .arg(uri(alloc))
}

// load [-n] [-r name]
fn load<'a>(alloc: Global) -> Result<Command<'a>, AllocError>
    ensures app { IfOk result (λ c. app_of c ≡ load_app) }
    ensures local { IfOk result (λ c. (out-Command c).has_globals ≡ false) }
{
    let no_overwrite = Arg::new(alloc, "no_overwrite")
        .short('n')
        .action(ArgAction::SetTrue);
    let name = Arg::new(alloc, "name").short('r');
    Command::new(alloc, "load").arg(no_overwrite)?.arg(name)
}
