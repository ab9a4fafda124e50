//! The words of a run, and the command that they give.
use crate::runs::words_of;
use command_line::*;
use std::alloc::{AllocError, Global};
use std::test::Fail;

// A text, and an option with a name after it, where that was there.
fn with_named(
    alloc: Global,
    text: Result<String, AllocError>,
    option: &str,
    name: Option<&str>,
) -> Result<String, AllocError> {
    let text = text?;
    match name {
        Some(name) => format!(in alloc; "{text} {option}=<{name}>"),
        None => Ok(text),
    }
}

// A text, and what stands last after it.
fn with_last(
    alloc: Global,
    text: Result<String, AllocError>,
    last: &str,
) -> Result<String, AllocError> {
    let text = text?;
    format!(in alloc; "{text}{last}")
}

// Whether free latches are tied.
fn tied(is_tied: bool) -> &'static str {
    if is_tied { " tie" } else { "" }
}

// Whether the least run is asked for too.
fn tied_or_least(is_tied: bool, is_least: bool) -> &'static str {
    match (is_tied, is_least) {
        (true, true) => " tie least",
        (true, false) => " tie",
        (false, true) => " least",
        (false, false) => "",
    }
}

// The files, the depths and the workers of a check, and what it prints: the depth of the search, where it is not that of the induction.
fn said_front(alloc: Global, c: Check<'_>) -> Result<String, AllocError> {
    let (left, right, k, depth) = (c.left, c.right, c.options.k, c.options.depth);
    let workers = c.options.workers;
    let classes = if c.options.classes { " classes" } else { "" };
    let stats = if c.options.stats { " stats" } else { "" };
    if depth == k {
        format!(in alloc; "check <{left}> <{right}> k={k} j={workers}{classes}{stats}")
    } else {
        format!(in alloc; "check <{left}> <{right}> k={k} d={depth} j={workers}{classes}{stats}")
    }
}

fn said_check(alloc: Global, c: Check<'_>) -> Result<String, AllocError> {
    let traced = with_named(alloc, said_front(alloc, c), "trace", c.options.trace);
    let certified = with_named(alloc, traced, "cert", c.options.cert);
    with_last(
        alloc,
        certified,
        tied_or_least(c.options.tied, c.options.least),
    )
}

// What a command says, with each name between < and >.
fn said_of(alloc: Global, command: Command<'_>) -> Result<String, AllocError> {
    match command {
        Command::Check(c) => said_check(alloc, c),
        Command::Replay(r) => {
            let (left, right, trace, tied) = (r.left, r.right, r.trace, tied(r.tied));
            format!(in alloc; "replay <{left}> <{right}> <{trace}>{tied}")
        }
        Command::Verify(v) => {
            let (left, right, cert, tied) = (v.left, v.right, v.cert, tied(v.tied));
            format!(in alloc; "verify <{left}> <{right}> <{cert}>{tied}")
        }
        Command::Demo(d) => {
            let (n, k, workers) = (d.n, d.k, d.workers);
            format!(in alloc; "demo {n} k={k} j={workers}")
        }
        Command::Climb(c) => {
            let least = if c.least { " least" } else { "" };
            let (left, right, most, workers) = (c.left, c.right, c.most, c.workers);
            format!(in alloc; "climb <{left}> <{right}> m={most} j={workers}{least}")
        }
        Command::Reduce(r) => {
            let binary = if r.binary { " binary" } else { "" };
            let (net, out, k, workers) = (r.net, r.out, r.k, r.workers);
            format!(in alloc; "reduce <{net}> <{out}> k={k} j={workers}{binary}")
        }
        Command::Batch(b) => {
            let (list, k, workers) = (b.list, b.k, b.workers);
            format!(in alloc; "batch <{list}> k={k} j={workers}")
        }
    }
}

// What words give.
fn said_by(alloc: Global, words: &[String]) -> Result<String, AllocError> {
    match read_words(alloc, words) {
        Ok(command) => said_of(alloc, command),
        Err(WordsFault::NotACommand) => format!(in alloc; "no command"),
        Err(WordsFault::Memory) => format!(in alloc; "no memory"),
    }
}

// Whether the words of a text give this.
fn is_said(alloc: Global, text: &str, wanted: &str) -> bool {
    match said(alloc, text) {
        Ok(said) => said.as_str() == wanted,
        Err(_) => false,
    }
}

fn said(alloc: Global, text: &str) -> Result<String, AllocError> {
    let words = words_of(alloc, text)?;
    said_by(alloc, words.as_slice())
}

#[test]
fn plain_words_mean_what_they_say(rt: HostRuntime) -> Result<(), Fail> {
    const PLAIN: &[(&str, &str)] = &[
        ("sec check a b", "check <a> <b> k=1 j=1"),
        ("sec check -k 2 a b", "check <a> <b> k=2 j=1"),
        ("sec check a -j 3 b", "check <a> <b> k=1 j=3"),
        ("sec check a b -d 64", "check <a> <b> k=1 d=64 j=1"),
        ("sec check -d 2 a -k 3 b", "check <a> <b> k=3 j=1"),
        ("sec check -k 3 a b -d 4", "check <a> <b> k=3 d=4 j=1"),
        (
            "sec check a b -k 16 -j 64 --classes --stats --trace t --cert c",
            "check <a> <b> k=16 j=64 classes stats trace=<t> cert=<c>",
        ),
        ("sec check a --least b", "check <a> <b> k=1 j=1 least"),
        (
            "sec check a b --cert c --tie --least",
            "check <a> <b> k=1 j=1 cert=<c> tie least",
        ),
        ("sec replay --tie a b t", "replay <a> <b> <t> tie"),
        ("sec verify a b c --tie", "verify <a> <b> <c> tie"),
        (
            "sec check --cert c --trace t a --stats --classes b -j 64 -k 16",
            "check <a> <b> k=16 j=64 classes stats trace=<t> cert=<c>",
        ),
        (
            "other/name check help check",
            "check <help> <check> k=1 j=1",
        ),
        ("sec replay a b t", "replay <a> <b> <t>"),
        ("sec verify a b c", "verify <a> <b> <c>"),
        ("sec demo 0", "demo 0 k=1 j=1"),
        ("sec demo -j 7 100000 -k 2", "demo 100000 k=2 j=7"),
        ("sec climb a b", "climb <a> <b> m=16 j=1"),
        (
            "sec climb -m 1 a --least -j 64 b",
            "climb <a> <b> m=1 j=64 least",
        ),
        ("sec reduce n o", "reduce <n> <o> k=1 j=1"),
        (
            "sec reduce --binary n -k 2 o -j 3",
            "reduce <n> <o> k=2 j=3 binary",
        ),
        ("sec batch list", "batch <list> k=1 j=1"),
        ("sec batch -k 16 list -j 4", "batch <list> k=16 j=4"),
    ];
    for &(text, wanted) in PLAIN {
        assert!(rt; is_said(rt.alloc(), text, wanted), "{text}");
    }
    Ok(())
}

#[test]
fn other_spellings_that_clap_takes(rt: HostRuntime) -> Result<(), Fail> {
    const SPELLED: &[(&str, &str)] = &[
        ("sec check a b -k2", "check <a> <b> k=2 j=1"),
        ("sec check a b -k=3", "check <a> <b> k=3 j=1"),
        ("sec check -k3 a b", "check <a> <b> k=3 j=1"),
        ("sec check a -k +2 b", "check <a> <b> k=2 j=1"),
        ("sec check a b -k 02", "check <a> <b> k=2 j=1"),
        ("sec check a b -j064", "check <a> <b> k=1 j=64"),
        ("sec check a b -d=+7", "check <a> <b> k=1 d=7 j=1"),
        ("sec check a b --trace=f", "check <a> <b> k=1 j=1 trace=<f>"),
        (
            "sec check a b --trace=f=g",
            "check <a> <b> k=1 j=1 trace=<f=g>",
        ),
        (
            "sec check a b --trace= --classes",
            "check <a> <b> k=1 j=1 classes trace=<>",
        ),
        ("sec check a b --trace -", "check <a> <b> k=1 j=1 trace=<->"),
        (
            "sec check --cert=-c a b --stats",
            "check <a> <b> k=1 j=1 stats cert=<-c>",
        ),
        ("sec check - b", "check <-> <b> k=1 j=1"),
        ("sec check -- -a b", "check <-a> <b> k=1 j=1"),
        ("sec check a -- --classes", "check <a> <--classes> k=1 j=1"),
        ("sec check -- -- --", "check <--> <--> k=1 j=1"),
        ("sec check a b --", "check <a> <b> k=1 j=1"),
        ("sec check  b", "check <> <b> k=1 j=1"),
        ("sec replay a b -- -t", "replay <a> <b> <-t>"),
        ("sec verify -- -a b c", "verify <-a> <b> <c>"),
        ("sec demo 05 -j3", "demo 5 k=1 j=3"),
        ("sec demo +5", "demo 5 k=1 j=1"),
        ("sec climb a b -m=+3", "climb <a> <b> m=3 j=1"),
        ("sec batch -j02 -- -l", "batch <-l> k=1 j=2"),
        (" check a b", "check <a> <b> k=1 j=1"),
        ("sec check a ", "check <a> <> k=1 j=1"),
    ];
    for &(text, wanted) in SPELLED {
        assert!(rt; is_said(rt.alloc(), text, wanted), "{text}");
    }
    Ok(())
}

// Words that are no command, of which one ends at each semicolon.
const NO_COMMANDS: &str =
    ";sec;sec ;sec help;sec help check;sec -h;sec --help;sec check --help;sec check a b -h;sec check -h;sec --version;sec -V;sec check a b --version;sec proof a b;sec Check a b;sec chec a b;sec -k 2 check a b;sec -- check a b;sec check;sec check a;sec check a b c;sec check a b ;sec check a b -k;sec check a b -k ;sec check a b -k 0;sec check a b -k0;sec check a b -k=0;sec check a b -k 17;sec check a b -k17;sec check a b -k x;sec check a b -k -1;sec check a b -k=-1;sec check a b -k 2 -k 3;sec check a b -k 2 -k2;sec check a b -kj;sec check a b -k 1.0;sec check a b -k 99999999999999999999;sec check a b --k 2;sec check a b -K 2;sec check a b -j 0;sec check a b -j 65;sec check a b -d 0;sec check a b -d 65;sec check a b -d 2 -d 3;sec check a b --classes --classes;sec check a b --classes=1;sec check a b --classes=;sec check a b --class;sec check a b -classes;sec check a b --trace;sec check a b --trace -k;sec check a b --trace --;sec check a b --cert c --cert d;sec check a b -t f;sec replay a b;sec replay a b t -k 1;sec replay a b -t;sec verify a b c d;sec demo;sec demo x;sec demo 100001;sec demo 1 2;sec demo 1 --stats;sec demo 1 -d 2;sec demo -- -1;sec climb a;sec climb a b c;sec climb a b -m 0;sec climb a b -m 17;sec climb a b -k 2;sec climb a b --tie;sec climb a b --least --least;sec reduce n;sec reduce n o p;sec reduce n o -k 0;sec reduce n o --binary --binary;sec batch;sec batch l m;sec batch l -k 17;sec batch l --least";

#[test]
fn words_that_are_no_command(rt: HostRuntime) -> Result<(), Fail> {
    for text in NO_COMMANDS.split(';') {
        assert!(rt; is_said(rt.alloc(), text, "no command"), "{text}");
    }
    Ok(())
}
