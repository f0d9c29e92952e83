//! Stories: where they stand among lines, and the choices of values for which each is played.

use anyhow::{Context, Result, bail};
use std::alloc::{AllocError, Global};

/// The lines of a story, of which the first names it.
#[derive(Clone, Copy)]
pub(crate) struct Story<'a> {
    pub(crate) name: &'a str,
    pub(crate) lines: &'a [&'a str],
}

/// A variable and its values.
#[derive(Drop)]
pub(crate) struct Variable<'a> {
    pub(crate) name: &'a str,
    pub(crate) values: Vec<&'a str>,
}

/// A value of each of two variables.
#[derive(Clone, Copy)]
pub(crate) struct Choice<'a> {
    pub(crate) names: [&'a str; 2],
    pub(crate) values: [&'a str; 2],
}

impl<'a> Choice<'a> {
    /// The value of a variable.
    fn value(&self, name: &str) -> Option<&'a str> {
        let [first, second] = self.names;
        let [one, two] = self.values;
        if name == first {
            Some(one)
        } else if name == second {
            Some(two)
        } else {
            None
        }
    }

    /// A word, or for one that begins with a dollar sign the value of that variable, or the part of it that is named.
    pub(crate) fn resolved(&self, word: &'a str) -> Result<&'a str> {
        let Some(variable) = word.strip_prefix('$') else {
            return Ok(word);
        };
        let (name, part) = variable.split_once('.').unwrap_or((variable, ""));
        let value = self.value(name).context("no such variable")?;
        match part {
            "" => Ok(value),
            "1" => Ok(parts(value)?.0),
            "2" => Ok(parts(value)?.1),
            _ => bail!("a value has two parts"),
        }
    }
}

/// What stands before and behind the slash of a value.
fn parts(value: &str) -> Result<(&str, &str)> {
    value
        .split_once('/')
        .context("a value of parts has a slash")
}

/// The words of a line, with the values of its variables.
pub(crate) fn words_of<'a>(
    alloc: Global,
    line: &'a str,
    choice: &Choice<'a>,
) -> Result<Vec<&'a str>> {
    let mut words = Vec::new(alloc);
    for word in line.split_whitespace() {
        words.push(choice.resolved(word)?)?;
    }
    Ok(words)
}

/// The places of the lines that begin a story, and the number of lines.
pub(crate) fn starts(alloc: Global, lines: &[&str]) -> Result<Vec<usize>, AllocError> {
    let mut starts = Vec::new(alloc);
    for (place, line) in lines.iter().enumerate() {
        if line.starts_with("story ") {
            starts.push(place)?;
        }
    }
    starts.push(lines.len())?;
    Ok(starts)
}

/// The first line that begins with a word, behind so many others that do.
pub(crate) fn line_with<'a>(lines: &[&'a str], word: &str, behind: usize) -> Option<&'a str> {
    let mut found: usize = 0;
    for line in lines.iter() {
        if line.starts_with(word) {
            if found == behind {
                return Some(*line);
            }
            found = found.saturating_add(1);
        }
    }
    None
}

/// The variable of a line; one without a name that has one value where there is no such line.
pub(crate) fn read_variable<'a>(alloc: Global, line: Option<&'a str>) -> Result<Variable<'a>> {
    let mut values = Vec::new(alloc);
    let Some(line) = line else {
        values.push("")?;
        return Ok(Variable { name: "", values });
    };
    let (name, listed) = line
        .strip_prefix("for ")
        .context("a variable's line begins with for")?
        .split_once(" in ")
        .context("a variable has values")?;
    for value in listed.split_whitespace() {
        values.push(value)?;
    }
    Ok(Variable { name, values })
}
