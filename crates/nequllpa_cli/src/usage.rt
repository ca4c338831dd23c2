//! The commands and their `--help`.
use clap::{Arg, ArgAction, Command};
use nequllpa_writing::PROGRAM;
use std::alloc::{AllocError, Global};

/// The version of the program.
const VERSION: &str = "0.1.0";

// How an argument is given.
#[derive(Clone, Copy)]
enum Given {
    // a positional argument
    Word,
    // the same, which may start with `-` and a digit
    WordOrNumber,
    // all remaining arguments
    Words,
    // a positional argument that may be missing
    OptionalWord,
    // an option without a value
    Flag,
    // an option with a value of this name
    Value(&'static str),
    // the same, required
    NeededValue(&'static str),
    // the same as `Value`, given once or more
    Values(&'static str),
}

// An argument of a command.
struct Word {
    name: &'static str,
    given: Given,
    help: &'static str,
}

// A command.
struct Usage {
    name: &'static str,
    about: &'static str,
    // the arguments after the folder
    words: &'static [Word],
}

static FOLDER: Word = Word {
    name: "DIR",
    given: Given::Word,
    help: "The folder of the index",
};

// The commands that write an index, in the order of the help.
static WRITING: [Usage; 5] = [
    Usage {
        name: "index",
        about: "Indexes JSON lines: the index replaces the one that the folder had. Input that takes more memory than --memory becomes several segments",
        words: &[
            Word {
                name: "FILE",
                given: Given::Words,
                help: "Files of JSON lines, an object on each line; - is standard input, which is read if no file is given",
            },
            Word {
                name: "schema",
                given: Given::NeededValue("FILE"),
                help: "The schema, in TOML: a table [[field]] with name and type for each field",
            },
            Word {
                name: "skip-bad",
                given: Given::Flag,
                help: "Leaves out lines that are no documents, prints why for each, and counts them",
            },
            Word {
                name: "skip-floats",
                given: Given::Flag,
                help: "Leaves out numbers with a fraction or an exponent in the values of JSON fields, and counts them; without it a line with one is no document",
            },
            Word {
                name: "locate",
                given: Given::Value("FIELD"),
                help: "Keeps where each line is: puts FILE:LINE:BYTE, the file as given, the number of the line from 1 and the byte of the file at which it begins, into this field of its document, a text field with stored = true; search --locate prints it",
            },
            Word {
                name: "memory",
                given: Given::Value("SIZE"),
                help: "About how much memory lines take before they are written as a segment, as 256MB, in B, KB, MB or GB (512MB unless given)",
            },
            Word {
                name: "quiet",
                given: Given::Flag,
                help: "Prints no progress, no need of memory and no counts on standard error; why lines are left out is printed all the same",
            },
            Word {
                name: "force",
                given: Given::Flag,
                help: "Replaces files with names of an index in a folder that has no meta",
            },
            Word {
                name: "json",
                given: Given::Flag,
                help: "Prints a JSON object: indexed, the number of documents, and left_out, that of the lines that were left out; with --skip-floats also skipped_floats, the number of numbers",
            },
        ],
    },
    Usage {
        name: "add",
        about: "Adds JSON lines to an index, by its schema: their documents come after those that it has. Takes as much memory as index, for the new lines alone. Then merges the last segments if they have as many documents together as the one before them, as far as the memory allows",
        words: &[
            Word {
                name: "FILE",
                given: Given::Words,
                help: "Files of JSON lines, an object on each line; - is standard input, which is read if no file is given",
            },
            Word {
                name: "locate",
                given: Given::Value("FIELD"),
                help: "Keeps where each line is: puts FILE:LINE:BYTE, the file as given, the number of the line from 1 and the byte of the file at which it begins, into this field of its document, a text field with stored = true; search --locate prints it",
            },
            Word {
                name: "memory",
                given: Given::Value("SIZE"),
                help: "About how much memory lines take before they are written as a segment, and then the segments that are merged, as 256MB, in B, KB, MB or GB (512MB unless given)",
            },
            Word {
                name: "no-merge",
                given: Given::Flag,
                help: "Merges no segments",
            },
            Word {
                name: "quiet",
                given: Given::Flag,
                help: "Prints no progress, no need of memory and no counts on standard error; why lines are left out is printed all the same",
            },
            Word {
                name: "replace-by",
                given: Given::Value("FIELD"),
                help: "Deletes the documents that have the value of this field of a new one; each line needs exactly one, and of lines with the same value the last one counts",
            },
            Word {
                name: "skip-bad",
                given: Given::Flag,
                help: "Leaves out lines that are no documents, prints why for each, and counts them",
            },
            Word {
                name: "skip-floats",
                given: Given::Flag,
                help: "Leaves out numbers with a fraction or an exponent in the values of JSON fields, and counts them; without it a line with one is no document",
            },
            Word {
                name: "json",
                given: Given::Flag,
                help: "Prints a JSON object: added, the number of documents, with --replace-by replaced, and left_out, the number of the lines that were left out; with --skip-floats also skipped_floats, the number of numbers",
            },
        ],
    },
    Usage {
        name: "delete",
        about: "Deletes the documents that have a term, and prints how many there were. Documents that are added later stay",
        words: &[
            Word {
                name: "FIELD",
                given: Given::Word,
                help: "The name of a field",
            },
            Word {
                name: "TERM",
                given: Given::WordOrNumber,
                help: "The term, as the command terms prints it",
            },
            Word {
                name: "json",
                given: Given::Flag,
                help: "Prints a JSON object: deleted, the number of documents",
            },
        ],
    },
    Usage {
        name: "merge",
        about: "Makes all segments of an index one, of the documents that were not deleted. No answer changes. Takes as much memory as the index has bytes, and as much again for the new one",
        words: &[Word {
            name: "json",
            given: Given::Flag,
            help: "Prints a JSON object: merged, the number of segments that were merged, 0 where there was nothing to merge, and documents, how many the index has",
        }],
    },
    Usage {
        name: "upgrade",
        about: "Makes an index of version 1 one of version 3, to which add can add; add does so by itself",
        words: &[Word {
            name: "json",
            given: Given::Flag,
            help: "Prints a JSON object: version, which the index has now, and upgraded, whether it was of version 1",
        }],
    },
];

// The commands that read an index, in the order of the help.
static READING: [Usage; 7] = [
    Usage {
        name: "search",
        about: "Prints the documents that match a query, numbered from 0 in the order of their lines; status 1 where there are none",
        words: &[
            Word {
                name: "QUERY",
                given: Given::OptionalWord,
                help: "Words, also after the name of a field and a colon, with AND, OR, NOT or -, and parentheses: sea AND -title:\"new\"",
            },
            Word {
                name: "batch",
                given: Given::Flag,
                help: "Answers each line of standard input as a query, by a line of JSON: an object with query, and docs, an array of the objects that --json prints, or count with --count, or error and its byte of the query; status 0 where all are answered",
            },
            Word {
                name: "field",
                given: Given::Values("FIELD"),
                help: "A field for words that name none, given once or more; all fields of texts if it is not given",
            },
            Word {
                name: "limit",
                given: Given::Value("N"),
                help: "Prints at most N documents; the status is that of all documents that match",
            },
            Word {
                name: "top",
                given: Given::Value("N"),
                help: "Prints the N best documents, the best first, each with its score (BM25)",
            },
            Word {
                name: "explain",
                given: Given::Flag,
                help: "With --top alone: prints under each document what its score is made of, an indented line for each part of the query that the document matches: its share of the score, its weight, how often it occurs, the norm (the length of the document's field), and the part; separated by tabs",
            },
            Word {
                name: "count",
                given: Given::Flag,
                help: "Prints only the number of documents",
            },
            Word {
                name: "positions",
                given: Given::Flag,
                help: "Prints after each document the terms of the query that occur in it, each with its positions: separated by tabs, as FIELD:TERM P P",
            },
            Word {
                name: "ids",
                given: Given::Flag,
                help: "Prints the value of the field id in place of the number of a document, - if it has none: the stored one if the schema stores it, else its first term; that is refused for texts of several words",
            },
            Word {
                name: "source",
                given: Given::Flag,
                help: "Prints what is stored of a document in place of its number: its line, if the schema says store_source = true, or an object of its stored fields; stands without --count, --positions and --ids",
            },
            Word {
                name: "fields",
                given: Given::Value("A,B"),
                help: "Prints of what is stored of a document only the members of these fields, as a JSON object, in this order; stands where --source does, and not with it",
            },
            Word {
                name: "snippet",
                given: Given::Flag,
                help: "Prints after each document, and a tab, of each stored text that has a word of the query the best 30 words; stands where --source does, and not with it or --fields",
            },
            Word {
                name: "locate",
                given: Given::Value("FIELD"),
                help: "Prints in place of the number of a document where its line is, as FILE:LINE, - if the field has no place (index --locate FIELD); with --snippet reads the line again, in the file as it is now; stands without --count, --positions, --ids, --source and --fields",
            },
            Word {
                name: "color",
                given: Given::Value("WHEN"),
                help: "Whether --snippet prints the words of the query in bold: always, never, or auto, which is on a terminal (auto if it is not given)",
            },
            Word {
                name: "timing",
                given: Given::Flag,
                help: "Prints on standard error how long opening the index took, and each search",
            },
            Word {
                name: "json",
                given: Given::Flag,
                help: "Prints a JSON object for each document: doc, its number; with --ids id; with --top score, and units, the score in units of 2^-38; with --explain explain, an array of objects with query, weight, weight_units, count, norm, share and units; with --source source, its line; with --fields fields, these members; with --locate place, an object with file, line and byte, or null; with --snippet snippet, as HTML with the words of the query in <b> elements; with --positions terms, each with field, term and positions; with --count one object with count",
            },
        ],
    },
    Usage {
        name: "get",
        about: "Prints what is stored of documents by their numbers: their lines, or objects of their stored fields; status 1 where there is no such document, where its block is damaged, or where nothing is stored",
        words: &[
            Word {
                name: "DOC",
                given: Given::Words,
                help: "Numbers of documents, as the command search prints them",
            },
            Word {
                name: "json",
                given: Given::Flag,
                help: "Prints a JSON object for each document: doc, its number, and source, its line",
            },
        ],
    },
    Usage {
        name: "terms",
        about: "Prints the terms of a field in order, each after the number of its documents",
        words: &[
            Word {
                name: "FIELD",
                given: Given::Word,
                help: "The name of a field",
            },
            Word {
                name: "prefix",
                given: Given::Value("P"),
                help: "Prints only the terms that begin with P",
            },
            Word {
                name: "top",
                given: Given::Value("N"),
                help: "Prints the N terms that are in the most documents, these first",
            },
            Word {
                name: "json",
                given: Given::Flag,
                help: "Prints a JSON object for each term: term, its text, and docs, the number of its documents",
            },
        ],
    },
    Usage {
        name: "postings",
        about: "Prints the documents of a term, each with how often the term occurs if the field records that; status 1 where there is no such term",
        words: &[
            Word {
                name: "FIELD",
                given: Given::Word,
                help: "The name of a field",
            },
            Word {
                name: "TERM",
                given: Given::WordOrNumber,
                help: "The term, as the command terms prints it",
            },
            Word {
                name: "positions",
                given: Given::Flag,
                help: "Prints where it occurs too, if the field records that",
            },
            Word {
                name: "json",
                given: Given::Flag,
                help: "Prints a JSON object for each document: doc, its number; freq and positions where they are printed",
            },
        ],
    },
    Usage {
        name: "fields",
        about: "Prints for each field its number, name, type, what it records, its terms and tokens; for a JSON field also its paths and types",
        words: &[Word {
            name: "json",
            given: Given::Flag,
            help: "Prints a JSON object for each field: number, field, type, indexed, record, fieldnorms, expand_dots, tokenizer, terms and tokens; and for each path of a JSON field one with field, path, type, terms and bytes, an object with postings and positions",
        }],
    },
    Usage {
        name: "check",
        about: "Checks that each file is as it was saved, walks every list of every term, compares the norms with the counts, and reads all stored lines; prints for each damage the file, the field, the term, the part and the range of its bytes; status 1 if something is damaged",
        words: &[
            Word {
                name: "quiet",
                given: Given::Flag,
                help: "Prints no progress on standard error; of an index of less than 16 MiB none is printed anyway",
            },
            Word {
                name: "json",
                given: Given::Flag,
                help: "Prints a JSON object for each damage: damage, segment, file, field, term, bytes and document, as far as it has them; and one with documents, files, changed_files, terms, postings, positions and damages at the end",
            },
        ],
    },
    Usage {
        name: "stats",
        about: "Prints how many documents there are, the bytes of each file, and for each field what its lists take",
        words: &[Word {
            name: "json",
            given: Given::Flag,
            help: "Prints a JSON object: documents, segments, deleted_documents, bytes, and fields, an object for each field",
        }],
    },
];

/// Builds the command line of the program.
pub fn command<'a>(alloc: Global) -> Result<Command<'a>, AllocError> {
    let command = Command::new(alloc, PROGRAM)
        .version(VERSION)
        .about(
            "Indexes JSON lines into a folder, searches the index and inspects it. Status 0: done; 1: no document, no such term, a bad line, no index, or a damaged one; 2: usage or the system",
        )
        .subcommand_required(true)
        .arg_required_else_help(true);
    with_reading(alloc, with_writing(alloc, command)?)
}

// Adds the commands that write an index.
fn with_writing<'a>(alloc: Global, command: Command<'a>) -> Result<Command<'a>, AllocError> {
    let mut command = command;
    for usage in &WRITING {
        command = with_subcommand(command, subcommand(alloc, usage))?;
    }
    Ok(command)
}

// Adds the commands that read an index.
fn with_reading<'a>(alloc: Global, command: Command<'a>) -> Result<Command<'a>, AllocError> {
    let mut command = command;
    for usage in &READING {
        command = with_subcommand(command, subcommand(alloc, usage))?;
    }
    Ok(command)
}

// Adds a subcommand, if it could be built.
fn with_subcommand<'a>(
    command: Command<'a>,
    below: Result<Command<'a>, AllocError>,
) -> Result<Command<'a>, AllocError> {
    match below {
        Ok(below) => command.subcommand(below),
        Err(fault) => {
            drop(command);
            Err(fault)
        }
    }
}

// Builds a command with its folder and arguments.
fn subcommand<'a>(alloc: Global, usage: &Usage) -> Result<Command<'a>, AllocError> {
    let mut command = Command::new(alloc, usage.name)
        .about(usage.about)
        .arg(argument(alloc, &FOLDER))?;
    for word in usage.words {
        command = command.arg(argument(alloc, word))?;
    }
    Ok(command)
}

fn argument<'a>(alloc: Global, word: &Word) -> Arg<'a> {
    let argument = Arg::new(alloc, word.name).help(word.help);
    match word.given {
        Given::Word => argument.required(true).action(ArgAction::Set),
        Given::WordOrNumber => argument
            .required(true)
            .action(ArgAction::Set)
            .allow_negative_numbers(true),
        Given::OptionalWord => argument.action(ArgAction::Set),
        Given::Words => argument.action(ArgAction::Append).num_args(0..),
        Given::Flag => argument.long(word.name).action(ArgAction::SetTrue),
        Given::Value(value) => argument
            .long(word.name)
            .value_name(value)
            .action(ArgAction::Set),
        Given::NeededValue(value) => argument
            .long(word.name)
            .value_name(value)
            .required(true)
            .action(ArgAction::Set),
        Given::Values(value) => argument
            .long(word.name)
            .value_name(value)
            .action(ArgAction::Append),
    }
}
