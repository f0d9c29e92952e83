//! Playing stories.

use crate::calls::told;
use crate::counting::Tally;
use crate::setting::volume;
use crate::story::{Choice, Story, Variable, line_with, read_variable, starts, words_of};
use anyhow::{Context, Result, bail};
use memory_volume::MemoryVolume;
use std::alloc::Global;

/// Whether a line isn't played itself: it is blank, a comment, or says of a story what it is played over.
fn is_passed_over(line: &str) -> bool {
    line.trim().is_empty()
        || line.starts_with('#')
        || line.starts_with("story ")
        || line.starts_with("for ")
        || line.starts_with("volume ")
}

/// The words of a row that is played in this choice; none of one that isn't.
fn played<'w, 'a>(words: &'w [&'a str], choice: &Choice<'a>) -> Result<&'w [&'a str]> {
    match words {
        ["at", value, rest @ ..] => {
            if *value == choice.resolved("$AT")? {
                Ok(rest)
            } else {
                Ok(&[])
            }
        }
        _ => Ok(words),
    }
}

/// Plays a row, and tells of one that goes otherwise.
fn play_row<'a, R: Print>(
    rt: &R,
    alloc: Global,
    volume: &mut MemoryVolume,
    line: &'a str,
    choice: &Choice<'a>,
    tally: &mut Tally,
) -> Result<()> {
    let (row, wanted) = line.split_once("->").context("a row has what is wanted")?;
    let words = words_of(alloc, row, choice)?;
    let words = played(&words, choice)?;
    if words.is_empty() {
        return Ok(());
    }
    let told = told(alloc, volume, words)?;
    let is_right = told.as_str() == wanted.trim();
    tally.count_row(is_right);
    if !is_right {
        println!(rt; "  {}: told {told}", line.trim())?;
    }
    Ok(())
}

/// Plays the rows of a story over its volume.
fn play_rows<'a, R: Print>(
    rt: &R,
    alloc: Global,
    volume: &mut MemoryVolume,
    story: Story<'a>,
    choice: &Choice<'a>,
    tally: &mut Tally,
) -> Result<()> {
    for line in story.lines.iter() {
        if is_passed_over(line) {
            continue;
        }
        if let Err(error) = play_row(rt, alloc, volume, *line, choice, tally) {
            println!(rt; "  {}: not played", line.trim())?;
            return Err(error);
        }
    }
    Ok(())
}

/// Plays a story in one choice of values, over a volume of its own. One that can't be made counts as a row that went otherwise.
fn play_once<'a, R: Print>(
    rt: &R,
    alloc: Global,
    story: Story<'a>,
    choice: &Choice<'a>,
    tally: &mut Tally,
) -> Result<()> {
    let line = line_with(story.lines, "volume ", 0).context("a story has a volume")?;
    let words = words_of(alloc, line, choice)?;
    let Some(mut volume) = volume(alloc, &words)? else {
        tally.count_row(false);
        println!(rt; "  {}: not made", line.trim())?;
        return Ok(());
    };
    play_rows(rt, alloc, &mut volume, story, choice, tally)
}

/// Plays a story with a value of the first variable and each of the second.
fn play_with<'a, R: Print>(
    rt: &R,
    alloc: Global,
    story: Story<'a>,
    first: (&'a str, &'a str),
    second: &Variable<'a>,
    tally: &mut Tally,
) -> Result<()> {
    for value in second.values.iter() {
        let choice = Choice {
            names: [first.0, second.name],
            values: [first.1, *value],
        };
        play_once(rt, alloc, story, &choice, tally)?;
    }
    Ok(())
}

/// Plays a story for each choice of values, and tells how many rows that were.
fn play<'a, R: Print>(rt: &R, alloc: Global, story: Story<'a>, tally: &mut Tally) -> Result<()> {
    let before = tally.rows;
    let first = read_variable(alloc, line_with(story.lines, "for ", 0))?;
    let second = read_variable(alloc, line_with(story.lines, "for ", 1))?;
    for value in first.values.iter() {
        play_with(rt, alloc, story, (first.name, *value), &second, tally)?;
    }
    tally.count_story();
    println!(rt;
        "{}: {} rows",
        story.name,
        tally.rows.saturating_sub(before)
    )?;
    Ok(())
}

/// Refuses a text whose lines before the first story say something.
fn check_front(lines: &[&str]) -> Result<()> {
    for line in lines.iter() {
        if line.starts_with("story ") {
            return Ok(());
        }
        if !is_passed_over(line) {
            bail!("a line stands before the first story");
        }
    }
    Ok(())
}

/// Plays all stories of a text.
pub(crate) fn play_all<R: Print>(rt: &R, alloc: Global, text: &str) -> Result<Tally> {
    let lines: Vec<&str> = text.lines().collect(alloc)?;
    check_front(&lines)?;
    let mut tally = Tally::new();
    let starts = starts(alloc, &lines)?;
    for pair in starts.windows(2) {
        if let Some(story) = story_of(&lines, pair) {
            play(rt, alloc, story, &mut tally)?;
        }
    }
    Ok(tally)
}

/// The story between two places.
fn story_of<'a>(lines: &'a [&'a str], places: &[usize]) -> Option<Story<'a>> {
    let [from, to] = *places else {
        return None;
    };
    let lines = lines.get(from..to)?;
    let name = lines.first()?.strip_prefix("story ")?;
    Some(Story { name, lines })
}
