//! What a word of a command is, and what `clap` is told of it.
use clap::builder::ValueParser;
use clap::{Arg, ArgAction, Command};
use std::alloc::{AllocError, Global};

/// The words of predicates.
const PREDICATES: [&str; 6] = ["ever", "always", "enters", "leaves", "crosses", "bypasses"];

/// What a word of a command is.
#[derive(Clone, Copy)]
pub(crate) enum Form<'a> {
    /// It has to be there.
    Required,
    /// It has to be there, and is a number of that at least.
    Count(u32),
    /// It has to be there, and may be a number below 0 where one of the words begins as one does.
    Bound,
    /// The same, where `--rects FILE` does not stand in its place.
    Corner,
    /// As many words as there are.
    Names,
    /// `--NAME`, without a value.
    Flag,
    /// `--NAME`, without a value, and that letter for it.
    FlagOrLetter(char),
    /// `--NAME VALUE`.
    Value(&'a str),
    /// `--NAME PRED`, the word of a predicate.
    Predicate,
    /// `--NAME VALUE`, a number.
    Number(&'a str),
    /// `--NAME N`, a number from 1 to 2^31.
    Limit,
    /// `--NAME N`, a number of 1 at least, and that where it is not there.
    CountOr(&'a str),
}

/// A word of a command: its name, what it is, and what is said of it.
#[derive(Clone, Copy)]
pub(crate) struct Word<'a> {
    pub(crate) form: Form<'a>,
    pub(crate) name: &'a str,
    pub(crate) help: &'a str,
}

/// A command: its name, what is said of it, and its words in their order.
#[derive(Clone, Copy)]
pub(crate) struct Called<'a> {
    pub(crate) name: &'a str,
    pub(crate) about: &'a str,
    pub(crate) words: &'a [Word<'a>],
}

/// How the words of a command line are read.
#[derive(Clone, Copy)]
pub(crate) struct Reading {
    /// Whether a bound may be a number below 0.
    pub(crate) takes_negative: bool,
    /// Whether `--rects FILE` stands in the place of a rectangle.
    pub(crate) has_rects: bool,
}

/// A number between two others.
fn between<'a>(least: u32, most: u32) -> ValueParser<'a> {
    ValueParser::signed(i64::from(least), i64::from(most))
}

/// A word that has to be there.
fn required<'a>(alloc: Global, word: Word<'a>) -> Arg<'a> {
    Arg::new(alloc, word.name)
        .help(word.help)
        .required(true)
        .action(ArgAction::Set)
}

/// A word that has to be there, and may begin with a minus or not.
fn bound<'a>(alloc: Global, word: Word<'a>, takes_negative: bool) -> Arg<'a> {
    required(alloc, word).allow_negative_numbers(takes_negative)
}

/// As many words as there are.
fn names<'a>(alloc: Global, word: Word<'a>) -> Arg<'a> {
    Arg::new(alloc, word.name).help(word.help).num_args(0..)
}

/// A word `--NAME` without a value.
fn flag<'a>(alloc: Global, word: Word<'a>) -> Arg<'a> {
    Arg::new(alloc, word.name)
        .long(word.name)
        .help(word.help)
        .action(ArgAction::SetTrue)
}

/// A word `--NAME` without a value, and that letter for it.
fn letter_flag<'a>(alloc: Global, word: Word<'a>, letter: char) -> Arg<'a> {
    flag(alloc, word).short(letter)
}

/// A word `--NAME VALUE`.
fn option<'a>(alloc: Global, word: Word<'a>, value: &'a str) -> Arg<'a> {
    Arg::new(alloc, word.name)
        .long(word.name)
        .value_name(value)
        .help(word.help)
}

/// A word without regard to which values it takes.
fn unparsed<'a>(alloc: Global, reading: Reading, word: Word<'a>) -> Arg<'a> {
    match word.form {
        Form::Required | Form::Count(_) => required(alloc, word),
        Form::Bound | Form::Corner => bound(alloc, word, reading.takes_negative),
        Form::Names => names(alloc, word),
        Form::Flag => flag(alloc, word),
        Form::FlagOrLetter(letter) => letter_flag(alloc, word, letter),
        Form::Value(value) | Form::Number(value) => option(alloc, word, value),
        Form::Predicate => option(alloc, word, "PRED"),
        Form::Limit => option(alloc, word, "N"),
        Form::CountOr(default) => option(alloc, word, "N").default_value(default),
    }
}

/// Which values a word takes; `None` where it takes all.
fn values_of<'a>(form: Form<'a>) -> Option<ValueParser<'a>> {
    match form {
        Form::Count(least) => Some(between(least, u32::MAX)),
        Form::CountOr(_) => Some(between(1, u32::MAX)),
        Form::Limit => Some(between(1, 1 << 31)),
        Form::Number(_) => Some(between(0, u32::MAX)),
        Form::Predicate => Some(ValueParser::Names(&PREDICATES)),
        _ => None,
    }
}

/// What `clap` is told of a word.
fn arg_of<'a>(alloc: Global, reading: Reading, word: Word<'a>) -> Arg<'a> {
    let arg = unparsed(alloc, reading, word);
    match values_of(word.form) {
        Some(values) => arg.value_parser(values),
        None => arg,
    }
}

/// Whether a word is left out of its command.
fn is_left_out(reading: Reading, word: Word<'_>) -> bool {
    match word.form {
        Form::Corner => reading.has_rects,
        _ => false,
    }
}

/// What `clap` is told of the words of a command.
fn args_of<'a>(
    alloc: Global,
    reading: Reading,
    words: &[Word<'a>],
) -> Result<Vec<Arg<'a>>, AllocError> {
    let mut args = Vec::new(alloc);
    for word in words {
        if !is_left_out(reading, *word) {
            args.push(arg_of(alloc, reading, *word))?;
        }
    }
    Ok(args)
}

/// What `clap` is told of a command.
pub(crate) fn command<'a>(
    alloc: Global,
    reading: Reading,
    called: &Called<'a>,
) -> Result<Command<'a>, AllocError> {
    let args = args_of(alloc, reading, called.words)?;
    Command::new(alloc, called.name)
        .about(called.about)
        .args(args)
}
