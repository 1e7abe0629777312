//! What the arguments ask for.
use std::{env, io};

/// What is asked of a day.
#[derive(Clone, Copy)]
pub enum Task {
    /// The credits of all participants.
    Credits,
    /// The hourly grid of a Resource.
    Grid { resource: u32 },
}

/// The task that the arguments say, or `None` where they say none.
pub fn read_task(rt: &HostRuntime) -> io::Result<Option<Task>> {
    let mut words = env::args(rt)?;
    let _program = words.next();
    let Some(word) = words.next() else {
        return Ok(Some(Task::Credits));
    };
    match (word.as_str(), words.next(), words.next()) {
        ("grid", Some(number), None) => Ok(grid_of(number.as_str())),
        _ => Ok(None),
    }
}

/// The grid of the Resource that a word names by its number.
fn grid_of(word: &str) -> Option<Task> {
    number_in(word).map(|resource| Task::Grid { resource })
}

/// The number that decimal digits say. One too large is the largest of its type, which no Resource has.
fn number_in(word: &str) -> Option<u32> {
    if word.is_empty() || !word.bytes().all(|byte| byte.is_ascii_digit()) {
        return None;
    }
    Some(word.parse().unwrap_or(u32::MAX))
}
