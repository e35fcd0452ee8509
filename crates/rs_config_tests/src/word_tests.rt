//! Words after `serve`, and what they say.

use rs_config::{ServeFault, read_serve, serve_help_text};
use std::alloc::Global;
use std::test::Fail;

/// What is answered, and the words, parted by spaces. A `¶` stands for a word without letters.
const ROWS: &str = r#"
c 8 | --config c
c 8 | --config=c
c 1 | --config c --workers 1
c 64 | --workers 64 --config c
c 7 | --workers=7 --config=c
c 7 | --workers=+7 --config=c
c 7 | --workers=07 --config=c
--config 8 | --config=--config
a=b 8 | --config=a=b
 8 | --config ¶
words |
words | --config
words | --workers 8
words | --config c --workers 0
words | --config c --workers 65
words | --config c --workers 256
words | --config c --workers 4294967304
words | --config c --workers=-1
words | --config c --workers x
words | --config c --workers ¶
words | --config c --workers
words | --config c --config d
words | --config c --workers 1 --workers 2
words | --config c more
words | c
words | --conf c
words | --configs c
words | -c c
words | --config c --users 1
words | --config c --version
words | --more --help
help | --help
help | -h
help | --config c --help
help | --workers 9 -h
"#;

fn words_in(alloc: Global, line: &str) -> Result<Vec<String>, Fail> {
    let mut words = Vec::new(alloc);
    for word in line.split(' ') {
        if word == "¶" {
            words.push(String::new(alloc))?;
        } else if !word.is_empty() {
            words.push(String::from_str(alloc, word)?)?;
        }
    }
    Ok(words)
}

fn answer_to(alloc: Global, words: &[String]) -> Result<String, Fail> {
    match read_serve(alloc, words) {
        Ok(read) => {
            let config = std::str::from_utf8(read.config.as_slice()).map_err(|_| "no text")?;
            let workers = read.workers;
            Ok(format!(in alloc; "{config} {workers}")?)
        }
        Err(ServeFault::Words) => Ok(String::from_str(alloc, "words")?),
        Err(ServeFault::Help) => Ok(String::from_str(alloc, "help")?),
        Err(ServeFault::NoMemory) => Ok(String::from_str(alloc, "no memory")?),
    }
}

#[test]
fn words_after_serve(rt: HostRuntime) -> Result<(), Fail> {
    let alloc = rt.alloc();
    for row in ROWS.trim().split('\n') {
        let (wanted, line) = row.split_once('|').ok_or("no words")?;
        let words = words_in(alloc, line)?;
        let answer = answer_to(alloc, words.as_slice())?;
        assert_eq!(rt; answer.as_str().trim(), wanted.trim(), "{row}");
    }
    Ok(())
}

#[test]
fn help_names_each_option(rt: HostRuntime) -> Result<(), Fail> {
    let help = str::from_utf8(serve_help_text()).ok().ok_or("no UTF-8")?;
    assert!(rt; help.contains("--config <FILE>"));
    assert!(rt; help.contains("--workers <N>"));
    assert!(rt; help.contains("1 to 64"));
    assert!(rt; help.contains("default: 8"));
    assert!(rt; help.ends_with("Print help"));
    Ok(())
}
