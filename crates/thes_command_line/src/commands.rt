//! The options, commands and help of the program.
ghost use Rattle.std.specs.Prelude.{◌≡◌, false, IfOk};
ghost use Rattle.clap.specs.Words.{App, Rule, app_of, rule_of, with_rule, with_subcommand};
ghost use Rattle.clap.specs.declared.builder.command.Command.TheViews.{out-Command as fields_of};
ghost use Rattle.thes_command_line.specs.Commands as line;

use clap::builder::ValueParser;
use clap::{Arg, ArgAction, Command};
use std::alloc::{AllocError, Global};

const VERSION: &str = "0.2";

const ABOUT: &str = "Maintains thesauri and the postings of catalogue records to their concepts.";

const DB: &str =
    "The file that keeps the store; without one it is in memory while the program runs";

const EXISTING: &str = "The store must be in the file: none is made";

const BASE_HELP: &str =
    "What the IRIs of a new store begin with [default: https://thesaurus.example/id/]";

const MAX_RESOURCES: &str =
    "Refuse requests that would make more schemes, concepts, collections and outside concepts [default: 20000]";

const MAX_LABELS: &str = "Refuse requests that would make more labels and notes [default: 200000]";

const MAX_LINKS: &str = "Refuse requests that would make more links [default: 200000]";

const MAX_POSTINGS: &str = "Refuse requests that would make more postings [default: 100000]";

const MAX_MOVES: &str = "Refuse requests that would make more moves of postings [default: 1000000]";

const SCRIPT: &str =
    "Answers the requests on standard input, one JSON object a line, by one line each";

const IMPORT: &str = "Performs a posting file, and prints what became of each row";

const FILE: &str = "The posting file: CSV with a header, one posting a row";

const EXPORT: &str = "Prints the store's SKOS triples as N-Triples";

const ALPHABETICAL: &str = "Prints a scheme's terms in alphabetical order, with their relations";

const HIERARCHICAL: &str = "Prints a scheme's terms as a tree, narrower ones below broader ones";

const SCHEME: &str = "The number of the scheme";

const LANG: &str = "The language tag of the terms";

const SERVE: &str = "Answers HTTP requests on 127.0.0.1, one connection after another";

const PORT: &str = "The port to listen on, 1 to 65535";

const COUNT: &str = "How many connections to serve before the program ends [default: 4294967295]";

const CHECK: &str = "Reads the whole store, and prints how much it holds";

const MIGRATE: &str = "Makes a store of version 1 one of version 2, and prints the version";

const EXAMPLE: &str = "\
An example. Each line of the script is a request, and gets one line as its answer. The store is kept in
museum.db, which is made if it doesn't exist:

  thesaurus --db museum.db script <<'END'
  {\"do\":\"scheme\",\"tag\":\"en\",\"text\":\"Animals\"}
  {\"do\":\"concept\",\"scheme\":1,\"tag\":\"en\",\"text\":\"Cats\"}
  {\"do\":\"concept\",\"scheme\":1,\"tag\":\"en\",\"text\":\"Mammals\"}
  {\"do\":\"link\",\"kind\":\"broader\",\"a\":2,\"b\":3}
  {\"do\":\"post\",\"key\":\"k1\",\"record\":\"r1\",\"concept\":2}
  END

  {\"ok\":1}
  {\"ok\":2}
  {\"ok\":3}
  {\"done\":true}
  {\"ok\":1}

  thesaurus --db museum.db --existing hierarchical --scheme 1 --lang en

  Mammals
    Cats

Each command has an example of its own: thesaurus COMMAND --help

Exit status:
  0  done
  1  something was refused: a request or a row, as its answer says; or a display or a posting file, as
     standard error says by the refusal's name
  2  the command line is wrong
  3  a fault, printed on standard error as 'thesaurus: fault NAME'

In the repository, docs/REQUESTS.md describes each request and its answers, docs/OPERATING.md files and
faults.";

const SCRIPT_PLANS: &str =
    "A line that is an array of 1 to 128 requests is a plan: all of them are performed, or none";

const SCRIPT_USAGE: &str = "thesaurus [--db <FILE>] script [--plans]";

const SCRIPT_EXAMPLE: &str = "\
An example. A merge takes the postings of its source along, and they show the move:

  thesaurus --db museum.db --existing script <<'END'
  {\"do\":\"merge\",\"source\":2,\"target\":3}
  {\"get\":\"posting\",\"number\":1}
  END

  {\"moved\":1}
  {\"first\":2,\"key\":\"k1\",\"moves\":[[1,2,3]],\"number\":1,\"place\":3,\"record\":\"r1\",\"withdrawn\":false}

Options before the command, as --db, choose the store: thesaurus --help lists them.";

const IMPORT_USAGE: &str = "thesaurus [--db <FILE>] import <FILE>";

const IMPORT_EXAMPLE: &str = "\
An example. Each posting is performed once, however often its file is imported:

  printf 'key,record,concept\\nk1,r1,2\\nk2,r2,3\\n' > postings.csv
  thesaurus --db museum.db --existing import postings.csv

  row,outcome,number
  1,again,1
  2,new,2

Options before the command, as --db, choose the store: thesaurus --help lists them.";

const EXPORT_USAGE: &str = "thesaurus [--db <FILE>] export";

const EXPORT_EXAMPLE: &str = "\
An example. The triples of the whole store, for other programs:

  thesaurus --db museum.db --existing export > museum.nt

Options before the command, as --db, choose the store: thesaurus --help lists them.";

const ALPHABETICAL_USAGE: &str = "thesaurus [--db <FILE>] alphabetical --scheme <N> --lang <TAG>";

const ALPHABETICAL_EXAMPLE: &str = "\
An example. A term that was merged into another one refers to it:

  thesaurus --db museum.db --existing alphabetical --scheme 1 --lang en

  Cats
    USE Mammals
  Mammals
    UF Cats

Options before the command, as --db, choose the store: thesaurus --help lists them.";

const HIERARCHICAL_USAGE: &str = "thesaurus [--db <FILE>] hierarchical --scheme <N> --lang <TAG>";

const HIERARCHICAL_EXAMPLE: &str = "\
An example. Narrower terms are indented below broader ones; a term that was merged isn't shown:

  thesaurus --db museum.db --existing hierarchical --scheme 1 --lang en

  Mammals

Options before the command, as --db, choose the store: thesaurus --help lists them.";

const SERVE_PLANS: &str =
    "Take plans at /plans: arrays of 1 to 128 requests, of which all are performed, or none";

const SERVE_USAGE: &str = "thesaurus [--db <FILE>] serve --port <N> [--count <N>] [--plans]";

const SERVE_EXAMPLE: &str = "\
An example. The store for other programs on this machine, at http://127.0.0.1:8080/; docs/HTTP.md in the
repository lists the paths:

  thesaurus --db museum.db --existing serve --port 8080

Options before the command, as --db, choose the store: thesaurus --help lists them.";

const CHECK_USAGE: &str = "thesaurus [--db <FILE>] check";

const CHECK_EXAMPLE: &str = "\
An example. A store that breaks a rule is reported by its first faulty table:

  thesaurus --db museum.db --existing check

  ok resources=3 labels=4 links=0 accepted=2 withdrawn=0 moves=1

Options before the command, as --db, choose the store: thesaurus --help lists them.";

const MIGRATE_USAGE: &str = "thesaurus [--db <FILE>] migrate";

const MIGRATE_EXAMPLE: &str = "\
An example. A store that has version 2 already stays as it is:

  thesaurus --db museum.db --existing migrate

  version 2

Options before the command, as --db, choose the store: thesaurus --help lists them.";

// Returns an option that takes one value, with the name of that value in the help.
fn option<'a>(alloc: Global, name: &'a str, value: &'a str, help: &'a str) -> Arg<'a>
    ensures rule { rule_of result ≡ line.option name.now }
    ensures local { result.global ≡ false }
{
    Arg::new(alloc, name)
        .long(name)
        .value_name(value)
        .help(help)
}

// Returns an option that takes a number from 1 to `most`.
fn number_option<'a>(alloc: Global, name: &'a str, most: u64, help: &'a str) -> Arg<'a>
    ensures rule { rule_of result ≡ line.number_option name.now most }
    ensures local { result.global ≡ false }
{
    option(alloc, name, "N", help).value_parser(ValueParser::Unsigned(1, most))
}

// Returns a flag of the command line: an option without a value.
fn flag<'a>(alloc: Global, name: &'a str, help: &'a str) -> Arg<'a>
    ensures rule { rule_of result ≡ line.flag name.now }
    ensures local { result.global ≡ false }
{
    Arg::new(alloc, name)
        .long(name)
        .action(ArgAction::SetTrue)
        .help(help)
}

// Returns an option for a limit of the store, a number from 1 to 2³² - 1.
fn limit<'a>(alloc: Global, name: &'a str, help: &'a str) -> Arg<'a>
    ensures rule { rule_of result ≡ line.limit name.now }
    ensures local { result.global ≡ false }
{
    number_option(alloc, name, 4_294_967_295, help)
}

// Returns the required argument that names a file.
fn required_file<'a>(alloc: Global) -> Arg<'a>
    ensures rule { rule_of result ≡ line.required_file }
    ensures local { result.global ≡ false }
{
    Arg::new(alloc, "file")
        .value_name("FILE")
        .help(FILE)
        .required(true)
}

// Returns a command without options of its own, with its usage and its example in the help.
fn command<'a>(
    alloc: Global,
    name: &'a str,
    about: &'a str,
    usage: &'a str,
    example: &'a str,
) -> Command<'a>
    ensures app { app_of result ≡ line.command name.now }
    ensures local { (fields_of result).has_globals ≡ false }
{
    Command::new(alloc, name)
        .about(about)
        .override_usage(usage)
        .after_help(example)
}

// Returns the command `script`, with the flag for plans.
fn script<'a>(alloc: Global) -> Result<Command<'a>, AllocError>
    ensures app { IfOk result (λ c. app_of c ≡ line.script) }
    ensures local { IfOk result (λ c. (fields_of c).has_globals ≡ false) }
{
    command(alloc, "script", SCRIPT, SCRIPT_USAGE, SCRIPT_EXAMPLE).arg(flag(
        alloc,
        "plans",
        SCRIPT_PLANS,
    ))
}

// Returns the command `import`, with its required file.
fn import<'a>(alloc: Global) -> Result<Command<'a>, AllocError>
    ensures app { IfOk result (λ c. app_of c ≡ line.import) }
    ensures local { IfOk result (λ c. (fields_of c).has_globals ≡ false) }
{
    command(alloc, "import", IMPORT, IMPORT_USAGE, IMPORT_EXAMPLE).arg(required_file(alloc))
}

// Returns a command that prints a display, with the required options `--scheme` and `--lang`.
fn display<'a>(
    alloc: Global,
    name: &'a str,
    about: &'a str,
    usage: &'a str,
    example: &'a str,
) -> Result<Command<'a>, AllocError>
    ensures app { IfOk result (λ c. app_of c ≡ line.display name.now) }
    ensures local { IfOk result (λ c. (fields_of c).has_globals ≡ false) }
{
    command(alloc, name, about, usage, example)
        .arg(option(alloc, "scheme", "N", SCHEME).required(true))?
        .arg(option(alloc, "lang", "TAG", LANG).required(true))
}

// Returns the command `serve`, with its required port, its number of connections, and the flag for
// plans.
fn serve<'a>(alloc: Global) -> Result<Command<'a>, AllocError>
    ensures app { IfOk result (λ c. app_of c ≡ line.serve) }
    ensures local { IfOk result (λ c. (fields_of c).has_globals ≡ false) }
{
    command(alloc, "serve", SERVE, SERVE_USAGE, SERVE_EXAMPLE)
        .arg(number_option(alloc, "port", 65_535, PORT).required(true))?
        .arg(number_option(alloc, "count", 4_294_967_295, COUNT))?
        .arg(flag(alloc, "plans", SERVE_PLANS))
}

// Returns the program with the options `--db` and `--existing`, before any other option or command
// is added.
fn file_options<'a>(
    alloc: Global,
    about: &'a str,
    example: &'a str,
) -> Result<Command<'a>, AllocError>
    ensures { IfOk result (λ c. app_of c ≡ line.file_options) }
{
    Command::new(alloc, "thesaurus")
        .bin_name("thesaurus")?
        .version(VERSION)
        .about(about)
        .after_help(example)
        .disable_help_subcommand(true)
        .subcommand_required(true)
        .arg(option(alloc, "db", "FILE", DB))?
        .arg(flag(alloc, "existing", EXISTING))
}

// Adds an option to a program, or returns the error of making the program. So its caller can add
// several options without an early exit for each.
fn with_option<'a>(
    program: Result<Command<'a>, AllocError>,
    option: Arg<'a>,
) -> Result<Command<'a>, AllocError>
    requires { option.global ≡ false }
    ensures { (app : App) (rule : Rule) → IfOk program.entry (λ p. app_of p ≡ app)
        → rule_of option.entry ≡ rule → IfOk result (λ r. app_of r ≡ with_rule app rule) }
{
    program?.arg(option)
}

// Returns the program with all its options, before any command is added.
fn program_options<'a>(alloc: Global) -> Result<Command<'a>, AllocError>
    ensures { IfOk result (λ c. app_of c ≡ line.program_options) }
{
    let program = file_options(alloc, ABOUT, EXAMPLE);
    let program = with_option(program, option(alloc, "base", "IRI", BASE_HELP));
    let program = with_option(program, limit(alloc, "max-resources", MAX_RESOURCES));
    let program = with_option(program, limit(alloc, "max-labels", MAX_LABELS));
    let program = with_option(program, limit(alloc, "max-links", MAX_LINKS));
    let program = with_option(program, limit(alloc, "max-postings", MAX_POSTINGS));
    with_option(program, limit(alloc, "max-moves", MAX_MOVES))
}

// Adds a command to a program, if both were made, or returns the first error.
fn with_command<'a>(
    program: Result<Command<'a>, AllocError>,
    command: Result<Command<'a>, AllocError>,
) -> Result<Command<'a>, AllocError>
    requires { IfOk command (λ c. (fields_of c).has_globals ≡ false) }
    ensures { (app added : App) → IfOk program.entry (λ p. app_of p ≡ app)
        → IfOk command.entry (λ c. app_of c ≡ added)
        → IfOk result (λ r. app_of r ≡ with_subcommand app added.top) }
{
    program?.subcommand(command?)
}

/// Returns the program with its options and its eight commands.
pub fn program<'a>(alloc: Global) -> Result<Command<'a>, AllocError>
    ensures { IfOk result (λ program. app_of program ≡ line.program) }
{
    let program = program_options(alloc);
    let program = with_command(program, script(alloc));
    let program = with_command(program, import(alloc));
    let export = command(alloc, "export", EXPORT, EXPORT_USAGE, EXPORT_EXAMPLE);
    let program = with_command(program, Ok(export));
    let alphabetical = display(
        alloc,
        "alphabetical",
        ALPHABETICAL,
        ALPHABETICAL_USAGE,
        ALPHABETICAL_EXAMPLE,
    );
    let program = with_command(program, alphabetical);
    let hierarchical = display(
        alloc,
        "hierarchical",
        HIERARCHICAL,
        HIERARCHICAL_USAGE,
        HIERARCHICAL_EXAMPLE,
    );
    let program = with_command(program, hierarchical);
    let program = with_command(program, serve(alloc));
    let check = command(alloc, "check", CHECK, CHECK_USAGE, CHECK_EXAMPLE);
    let program = with_command(program, Ok(check));
    let migrate = command(alloc, "migrate", MIGRATE, MIGRATE_USAGE, MIGRATE_EXAMPLE);
    with_command(program, Ok(migrate))
}
