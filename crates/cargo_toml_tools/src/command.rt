//! The command line as `clap` has it.
use cargo_toml_lint::AllocResult;
use clap::builder::ValueParser;
use clap::{Arg, ArgAction, Command};
use std::alloc::Global;

const STATUSES: &str = "Statuses: 0 all is well; 1 a file can't be read or is refused, or the \
    output can't be written; 2 no command; 3 check, lint or audit found something. 1 outranks 3.";

const ALONE: &str = "alone: Complete it from itself and the names beside it; no workspace is \
    looked for";

/// The tools. Each has its name and what it does, and then its options: a name, what the option
/// takes unless it is a flag, and its help. Those with files have further ones.
const TOOLS: [&[&str]; 7] = [
    &["check: Tells which keys keep a manifest from being read and completed, and where"],
    &[
        "show: Prints a manifest as it is once it is completed",
        "json: Print JSON in place of TOML",
    ],
    &[
        "features: Prints the features that a manifest resolves to",
        "json: Print JSON, the only form so far",
    ],
    &[
        "index: Prints the line that a registry's index has of a crate",
        "registry URL: The index that the line is for [default: crates.io's]",
        "registry-name NAME=URL: What a registry is called in manifests",
        "checksum HEX: The SHA-256 of the only crate",
        "checksums FILE: Lines of sha256sum, for NAME-VERSION.crate each",
        "crates FOLDER: Take the SHA-256 of NAME-VERSION.crate in FOLDER",
        "force: Also what isn't published there, lacks a checksum, or has errors by lint",
        "with-names: Put the file and a tab before each line",
        "layout FOLDER: Add each line to its file of an index in FOLDER",
        "config URL: Write config.json there, with the address of archives",
        "yank NAME@VERSION: Yank this version there",
        "unyank NAME@VERSION: Take that back",
    ],
    &[
        "lint: Tells what is amiss with the features of a crate",
        "json: Print an object of JSON a line",
        "allow CODE[=FEATURE]: Pass over these findings",
        "deny LEVEL: Also end with status 3 where there are hints",
        "workspace FOLDER: Look at all members of the workspace in FOLDER",
    ],
    &[
        "audit: Reports on the workspace in a folder",
        "json: Print JSON in place of lines",
    ],
    &[
        "document: Prints a page on the features that users may ask for",
        "dot: Print the graph in Graphviz's language",
    ],
];

/// The command line of the program.
pub(crate) fn command<'a>(alloc: Global) -> AllocResult<Command<'a>> {
    let mut command = Command::new(alloc, "cargo-toml-tools")
        .bin_name("cargo-toml-tools")?
        .about("Tools over the manifests of Cargo")
        .version("1.0.1+1")
        .after_help(STATUSES)
        .subcommand_required(true);
    for lines in &TOOLS {
        command = command.subcommand(tool(alloc, *lines)?)?;
    }
    Ok(command)
}

fn tool<'a>(alloc: Global, lines: &'a [&'a str]) -> AllocResult<Command<'a>> {
    let (name, about) = parts(lines.first().copied().unwrap_or(""));
    let mut tool = Command::new(alloc, name).about(about).after_help(STATUSES);
    for line in lines.iter().skip(1) {
        tool = tool.arg(option(alloc, name, *line)?)?;
    }
    if name == "audit" {
        let folder = Arg::new(alloc, "folder").value_name("FOLDER");
        let folder = folder.value_parser(ValueParser::NonEmptyString);
        return tool.arg(folder.help("The folder").required(true));
    }
    if matches!(name, "check" | "show" | "features" | "index") {
        tool = tool.arg(option(alloc, name, ALONE)?.required(false))?;
    }
    let from = "files-from LIST: A file with the name of a manifest a line; `-` too";
    let null = "null: Names in LIST end by NUL";
    let null = option(alloc, name, null)?.required(false).short('0');
    let tool = tool.arg(option(alloc, name, from)?)?.arg(null)?;
    let files = Arg::new(alloc, "files")
        .value_name("FILE")
        .value_parser(ValueParser::NonEmptyString)
        .help("Manifests; `-` is standard input")
        .action(ArgAction::Append)
        .num_args(1..)
        .required_unless_present("files-from")?;
    match name {
        "lint" => tool.arg(files.required_unless_present("workspace")?),
        "index" => {
            let files = files.required_unless_present("config")?;
            let files = files.required_unless_present("yank")?;
            tool.arg(files.required_unless_present("unyank")?)
        }
        _ => tool.arg(files),
    }
}

/// What stands before and behind the colon of a line.
fn parts(line: &str) -> (&str, &str) {
    line.split_once(": ").unwrap_or((line, ""))
}

/// The option of a line of a tool. JSON is the only form of `features`.
fn option<'a>(alloc: Global, tool: &str, line: &'a str) -> AllocResult<Arg<'a>> {
    let (form, help) = parts(line);
    let (name, value) = form.split_once(' ').unwrap_or((form, ""));
    let option = Arg::new(alloc, name).long(name).help(help);
    if value.is_empty() {
        let flag = option.action(ArgAction::SetTrue);
        return Ok(flag.required(tool == "features"));
    }
    let option = option.value_name(value);
    let option = option.value_parser(ValueParser::NonEmptyString);
    match name {
        "registry-name" | "allow" => Ok(option.action(ArgAction::Append)),
        "checksums" => option.conflicts_with("checksum"),
        "crates" => option
            .conflicts_with("checksum")?
            .conflicts_with("checksums"),
        "config" => option.requires_arg("layout"),
        "yank" | "unyank" => option.action(ArgAction::Append).requires_arg("layout"),
        "layout" => option.conflicts_with("with-names"),
        "deny" => Ok(option.value_parser(["hint"].as_slice())),
        _ => Ok(option),
    }
}
